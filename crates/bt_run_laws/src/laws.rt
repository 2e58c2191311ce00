// The laws of what a run and a session print.
ghost use Rattle.std.specs.Prelude.{◌≡◌, ℕ, ◌+◌, ◌<◌, ◌^◌, List, [], ◌∷◌, ◌++◌, length, IsTrue, Ok};
ghost use Rattle.std.specs.List.{list_all};
ghost use Rattle.bt_air.specs.declared.event.Event.{Event};
ghost use Rattle.bt_centre.specs.declared.history.History.{History};
ghost use Rattle.bt_centre.specs.Run.{RunsFrom, RunsWhole, whole_text};
ghost use Rattle.bt_net.specs.Network.{IsSound, Net};
ghost use Rattle.bt_report.specs.Output.{Output};
ghost use Rattle.bt_report.specs.Stored.{Stored};
ghost use Rattle.bt_run_lines.specs.Lines.{lines_from, output_of, with_line};
ghost use Rattle.bt_run_lines.specs.Printers.{line, numbers};
ghost use Rattle.bt_run_laws.specs.Readable.{AreLines};
ghost use Rattle.bt_script.specs.declared.script.Script.{Script};
ghost use Rattle.bt_script.specs.ScriptText.{script_of};
ghost use Rattle.bt_talk.specs.Answers.{counted};
ghost use Rattle.bt_text.specs.Text.{ended, lacks, lines};
ghost use Rattle.bt_words.specs.declared.form.Form.TheVariants as form;

/// What a run that came to the end of its script prints is printed lines, each with values that suit its form and none of which tells
/// of others, and is read as just these, with no fault: the first line, those of its parts, and the last.
pub fn a_runs_output_is_read()
    ensures read { (net : Net) (text : List ℕ) (script : Script) (output : Output) (stored : Stored) (status : ℕ)
        (histories : List History) (events : List Event) → IsSound net → script_of net text ≡ Ok script
        → (run : RunsFrom net script output stored status histories events)
        → (whole : RunsWhole net script.items output stored run.opening status histories events)
        → (are : AreLines net (whole_text net run.opening whole.lines histories))
        × (output_of net (whole_text net run.opening whole.lines histories) ≡ Ok are.all) }
{}

/// What a session is told is passed over: in an output with such an answer in front the other lines are those behind it, with the
/// line that tells how many lines the answer has in front of them.
pub fn answers_are_passed_over()
    ensures passed { (net : Net) → (at : ℕ) → (told : List (List ℕ)) → (more : List ℕ) → IsSound net
        → IsTrue (list_all (lacks 10) told) → length told < 10 ^ 19
        → lines_from net at 0 (lines (counted (ended told) ++ more))
        ≡ with_line (line form.Lines (numbers (length told ∷ []))) (lines_from net (at + 1 + length told) 0 (lines more)) }
{}
