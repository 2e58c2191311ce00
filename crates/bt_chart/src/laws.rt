// What holds of the program's reports, whatever it does.
ghost use Rattle.std.specs.Prelude.{◌≡◌, ℕ, List, [], Option};
ghost use Rattle.bt_net.specs.Network.{Net};
ghost use Rattle.bt_plan_chart.specs.Scale.{whole};
ghost use Rattle.bt_report.specs.Outcome.{Outcome};
ghost use Rattle.bt_chart.specs.Choosing.{choice_of};
ghost use Rattle.bt_chart.specs.Request.{Request};
ghost use Rattle.bt_chart.specs.Top.{AreTold, Charts, IsOneChart};

use bt_book::journals_tell_one_thing;

/// Where the files that are asked for are told and none of them failed, what is asked has one report: no two cases of the
/// promise hold together.
pub fn one_chart()
    ensures same { (told : List ℕ → Option (List ℕ)) (request : Request) → AreTold told request
        → (a b : Outcome) → Charts told ⊥ request a → Charts told ⊥ request b → IsOneChart request a b }
{
    journals_tell_one_thing();
}

/// Where no word stands behind a plan, all of it is drawn.
pub fn no_words_choose_the_whole()
    ensures whole { (net : Net) → choice_of net [] ≡ whole }
{}
