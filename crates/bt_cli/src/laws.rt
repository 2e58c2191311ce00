// What holds of the program's reports, whatever it does.
ghost use Rattle.std.specs.Prelude.{◌≡◌, ◌⊎◌, ℕ, List, [], ◌∷◌, length, codes, Option, Ok};
ghost use Rattle.bt_frame.specs.declared.schedule.Schedule.{Schedule};
ghost use Rattle.bt_net.specs.Network.{Net, IsSound};
ghost use Rattle.bt_matrix.specs.Good.{IsGood};
ghost use Rattle.bt_demand.specs.declared.demand.Link.{Link};
ghost use Rattle.bt_demand.specs.Demand.{IsDemand};
ghost use Rattle.bt_demand.specs.Traffic.{AreOfNetwork};
ghost use Rattle.bt_plan.specs.MatrixText.{matrix_reading};
ghost use Rattle.bt_plan.specs.PlanText.{plan_reading};
ghost use Rattle.bt_plan.specs.ScheduleSpelling.{schedule_spelling};
ghost use Rattle.bt_plan.specs.ScheduleText.{schedule_of};
ghost use Rattle.bt_words.specs.Lines.{line_of};
ghost use Rattle.bt_report.specs.declared.status.TheConstants.{DONE, WRITE_FAILED};
ghost use Rattle.bt_cli.specs.Check.{Judges};
ghost use Rattle.bt_cli.specs.CheckPlan.{JudgesPlan};
ghost use Rattle.bt_cli.specs.Complete.{NothingFails};
ghost use Rattle.bt_cli.specs.Fitting.{Fits};
ghost use Rattle.bt_report.specs.Input.{FilesFailed, Input};
ghost use Rattle.bt_report.specs.Outcome.{Outcome, PrintsOneOf, Says, text_alone};
ghost use Rattle.bt_cli.specs.Plans.{PrintsPlan};
ghost use Rattle.bt_cli.specs.Request.{Request};
ghost use Rattle.bt_report.specs.Output.{Output};
ghost use Rattle.bt_report.specs.Stored.{Stored};
ghost use Rattle.bt_cli.specs.Run.{End};
ghost use Rattle.bt_cli.specs.Top.{AreOneStore, AreTold, Ends, IsOneReport, Reports, Serves};

use bt_book::journals_tell_one_thing;
use bt_demand::{good_plans_are_flyable, links_tell_demands, one_plan_verdict, one_verdict};
use bt_matrix::one_line_is_heaviest;
use bt_plan::{plans_have_one_spelling, schedules_have_one_spelling};

/// Where the files that are asked for are told and none of them failed, and for a run and a replay the store, what is asked
/// has one report: no two cases of the promise hold together. Of the good schedules for a matrix any may be printed, of the
/// good plans for a demand, and of the runs of a script, which then lose nothing.
pub fn one_report()
    ensures same { (told : List ℕ → Option (List ℕ)) (one other : Stored) (request : Request)
        → AreTold told request → AreOneStore request one other
        → (a b : Outcome) → Reports told ⊥ one request a → Reports told ⊥ other request b
        → IsOneReport request a b }
{
    one_verdict();
    one_plan_verdict();
    one_line_is_heaviest();
    links_tell_demands();
    journals_tell_one_thing();
}

/// However the program ends, what was asked was answered, but where the output failed: memory ran out, or one of the
/// outcomes that the promise allows was printed with its status.
pub fn ends_are_reports()
    ensures printed { (input : Input) (output : Output) (stored : Stored) (request : Request) (end : End) → Ends input output stored request end
        → (end.status ≡ WRITE_FAILED) ⊎ PrintsOneOf output (Reports input.told (FilesFailed input) stored request) end.status }
{}

/// Where the words are a command's, each file that is read is told, within its limit and of its grammar, the demand fits
/// where that is asked, the store is told, within its limit, and tells changes where it is read, and nothing fails in the
/// call, the work is done: the status is 0, for `check` and `timing` that of the verdict, for a look at a journal also that of
/// its first line at fault or of words that ask for what it does not have, or that of want of memory.
pub fn sound_input_is_served()
    ensures served { (input : Input) (output : Output) (stored : Stored) (request : Request) (end : End)
        → NothingFails input output stored → Ends input output stored request end → Serves input.told stored request end.status }
{
    one_verdict();
    one_plan_verdict();
    one_line_is_heaviest();
    links_tell_demands();
    journals_tell_one_thing();
}

/// What `modes` prints for a matrix is read back by `check`, for that matrix, as the schedule that was printed; and
/// the line of its verdict is `good`, with status 0, and no other.
pub fn printed_schedules_are_read_back()
    ensures read { (text : List ℕ) (rows : List (List ℕ)) (schedule : Schedule) → matrix_reading text ≡ Ok rows → IsGood rows schedule
        → schedule_of (length rows) (schedule_spelling schedule) ≡ Ok schedule }
    ensures judged { (rows : List (List ℕ)) (schedule : Schedule) → IsGood rows schedule → Judges rows schedule (text_alone (line_of (codes "good" ∷ [])) DONE) }
    ensures alone { (rows : List (List ℕ)) (schedule : Schedule) (outcome : Outcome) → IsGood rows schedule
        → Judges rows schedule outcome → Says (codes "good" ∷ []) DONE outcome }
{
    one_verdict();
    schedules_have_one_spelling();
}

/// What `plan` prints for a demand that fits is read back by `check`, for that network, as the plan that was printed;
/// and the line of its verdict is `good`, with status 0, and no other.
pub fn printed_plans_are_read_back()
    ensures read { (net : Net) (links : List Link) (outcome : Outcome) → IsSound net → AreOfNetwork net links → Fits net links
        → (printed : PrintsPlan net links outcome) → plan_reading net outcome.text ≡ Ok printed.plan }
    ensures judged { (net : Net) (links : List Link) (outcome : Outcome) → IsDemand links
        → (printed : PrintsPlan net links outcome) → JudgesPlan net links printed.plan (text_alone (line_of (codes "good" ∷ [])) DONE) }
    ensures alone { (net : Net) (links : List Link) (outcome judged : Outcome)
        → (printed : PrintsPlan net links outcome) → JudgesPlan net links printed.plan judged → Says (codes "good" ∷ []) DONE judged }
{
    one_plan_verdict();
    good_plans_are_flyable();
    plans_have_one_spelling();
}
