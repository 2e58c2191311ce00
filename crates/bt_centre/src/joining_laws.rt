// What holds of the orders of a world, in every run of a script and in every session.
ghost use Rattle.std.specs.Prelude.{◌≡◌, ℕ, true, Bool, List};
ghost use Rattle.std.specs.Option.{is_some};
ghost use Rattle.bt_net.specs.Network.{Net};
ghost use Rattle.bt_script.specs.declared.sites.Sites.{Sites};
ghost use Rattle.bt_air.specs.declared.event.Event.{Event};
ghost use Rattle.bt_centre.specs.declared.history.History.{History};
ghost use Rattle.bt_centre.specs.Joining.{HasOrders, JoinsWanted, PartHasOrders, RestartJoins};
ghost use Rattle.bt_report.specs.Output.{Output};
ghost use Rattle.bt_centre.specs.Parts.{EachPartAtEnd, EachPartOfSession};
ghost use Rattle.bt_centre.specs.Run.{PlaysRestart, RunsFrom, Stand, at_start};
ghost use Rattle.bt_centre.specs.Session.{SessionFrom};
ghost use Rattle.bt_centre.specs.Talked.{Talked};
ghost use Rattle.bt_report.specs.Stored.{Stored};
ghost use Rattle.bt_journal.specs.declared.call.Change.{Change};
ghost use Rattle.bt_script.specs.declared.script.Script.{Script};

/// At a restart the order that the centre wanted joins the world exactly where the changes then have one order more,
/// namely that one; nothing else joins. In every run over a store that tells its bytes, at each restart an order joins exactly
/// where the changes then have more orders than the world, and it is the last of them; and before and behind each part
/// that was run the world has just the orders of the changes. So it is in every session. Of a run or a session that want of memory
/// ended no part is told.
pub fn orders_join_as_told()
    ensures joined { (net : Net) (tells : Bool) (before after : Stand) (text : List ℕ) → PlaysRestart net tells before text after
        → JoinsWanted before after }
    ensures runs { (net : Net) (script : Script) (output : Output) (stored : Stored) (status : ℕ) (histories : List History)
        (events : List Event) → is_some stored.before ≡ true
        → (run : RunsFrom net script output stored status histories events)
        → EachPartAtEnd RestartJoins net script.items output stored run.opening status histories events run.ends }
    ensures orders { (net : Net) (script : Script) (output : Output) (stored : Stored) (status : ℕ) (histories : List History)
        (events : List Event) → is_some stored.before ≡ true
        → (run : RunsFrom net script output stored status histories events)
        → EachPartAtEnd PartHasOrders net script.items output stored run.opening status histories events run.ends }
    ensures sessions { (net : Net) (sites : Sites) (talk : Talked) (stored : Stored) (status : ℕ) (histories : List History) (events : List Event)
        → is_some stored.before ≡ true → (session : SessionFrom net sites talk stored status histories events)
        → EachPartOfSession RestartJoins net sites talk stored session.opening status histories events session.ends }
    ensures orders_in_sessions { (net : Net) (sites : Sites) (talk : Talked) (stored : Stored) (status : ℕ) (histories : List History)
        (events : List Event) → is_some stored.before ≡ true
        → (session : SessionFrom net sites talk stored status histories events)
        → EachPartOfSession PartHasOrders net sites talk stored session.opening status histories events session.ends }
    ensures start { (net : Net) (sites : Sites) (opening : List Change) → HasOrders (at_start net sites opening) }
{}
