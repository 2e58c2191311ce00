// Laws of the printed lines: each has one spelling and is read back from it, and what is printed by a form is such a line.
ghost use Rattle.std.specs.Prelude.{◌≡◌, ◌<◌, ℕ, ◌+◌, ◌^◌, List, [], ◌∷◌, ◌++◌, length, IsTrue, Some, IfSome};
ghost use Rattle.std.specs.List.{list_all};
ghost use Rattle.bt_text.specs.Text.{ended, lacks, lines};
ghost use Rattle.bt_net.specs.Network.{Net, IsSound};
ghost use Rattle.bt_air.specs.declared.sent.Answer.{Answer};
ghost use Rattle.bt_air.specs.declared.sent.Place.{Place};
ghost use Rattle.bt_timeline.specs.Air.{got_line};
ghost use Rattle.bt_words.specs.declared.form.Form.TheVariants as form;
ghost use Rattle.bt_words.specs.Forms.{is_of_a_run};
ghost use Rattle.bt_run_lines.specs.declared.printed.Printed.{Printed};
ghost use Rattle.bt_run_lines.specs.Lines.{line_in, lines_from, with_line};
ghost use Rattle.bt_run_lines.specs.Spelled.{Suits, spelled};
ghost use Rattle.bt_run_lines.specs.Printers.{got_printed, line, numbers, printed_line};

/// Of the lines that are read as a printed line, it has one spelling, by a form of a run.
pub fn printed_lines_have_one_spelling()
    ensures spelled { (net : Net) → (bytes : List ℕ) → (printed : Printed)
        → line_in net bytes ≡ Some printed → bytes ≡ spelled net printed }
    ensures of_a_run { (net : Net) → (bytes : List ℕ) → (printed : Printed)
        → line_in net bytes ≡ Some printed → IsTrue (is_of_a_run printed.form) }
{}

/// What is spelled by a form and values that suit it is read as these.
pub fn spelled_lines_are_read()
    ensures read { (net : Net) → IsSound net → (printed : Printed) → Suits net printed
        → line_in net (spelled net printed) ≡ Some printed }
{}

/// What is printed by a form, with the words of values at its open places, is spelled by it and these, with a newline.
pub fn lines_of_forms_are_printed_lines()
    ensures spelled { (net : Net) → (printed : Printed) → printed_line net printed ≡ spelled net printed ++ 10 ∷ [] }
{}

/// The deliveries are printed lines. Their forms differ in what may stand at their places, and they are printed by one of them.
pub fn deliveries_are_printed_lines()
    ensures got { (net : Net) → (number : ℕ) → (place : Place) → (answer : Answer)
        → IfSome (got_printed number place answer) (λ printed. got_line net number place answer ≡ printed_line net printed) }
{}
