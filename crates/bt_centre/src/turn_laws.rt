// What the turns of a run know of the plans that are installed.
ghost use Rattle.std.specs.Prelude.{◌≡◌, ℕ, true, List};
ghost use Rattle.std.specs.Option.{is_some};
ghost use Rattle.bt_net.specs.Network.{Net};
ghost use Rattle.bt_script.specs.declared.sites.Sites.{Sites};
ghost use Rattle.bt_air.specs.declared.event.Event.{Event};
ghost use Rattle.bt_centre.specs.declared.history.History.{History};
ghost use Rattle.bt_report.specs.Output.{Output};
ghost use Rattle.bt_centre.specs.Parts.{EachPartAtEnd, EachPartOfSession};
ghost use Rattle.bt_centre.specs.Run.{RunsFrom, at_start};
ghost use Rattle.bt_centre.specs.Session.{SessionFrom};
ghost use Rattle.bt_centre.specs.Talked.{Talked};
ghost use Rattle.bt_report.specs.Stored.{Stored};
ghost use Rattle.bt_centre.specs.Turns.{IsNewestOf, PartIsNoNewer, TurnsKnow};
ghost use Rattle.bt_journal.specs.declared.call.Change.{Change};
ghost use Rattle.bt_script.specs.declared.script.Script.{Script};

/// In every run over a store that tells its bytes, each turn knows of the newest plan that was installed before it asked,
/// by whomever: with the answer, the newest edition of the world is that plan's, and it is the one to bring to the front
/// where the centre goes back to none. The world opens with the newest plan of the changes; before and behind each part
/// that was run it has none newer than theirs. So it is in every session. Of a run or a session that want of memory ended no part
/// is told.
pub fn turns_know_the_newest_install()
    ensures runs { (net : Net) (script : Script) (output : Output) (stored : Stored) (status : ℕ) (histories : List History)
        (events : List Event) → is_some stored.before ≡ true
        → (run : RunsFrom net script output stored status histories events)
        → EachPartAtEnd TurnsKnow net script.items output stored run.opening status histories events run.ends }
    ensures no_newer { (net : Net) (script : Script) (output : Output) (stored : Stored) (status : ℕ) (histories : List History)
        (events : List Event) → is_some stored.before ≡ true
        → (run : RunsFrom net script output stored status histories events)
        → EachPartAtEnd PartIsNoNewer net script.items output stored run.opening status histories events run.ends }
    ensures sessions { (net : Net) (sites : Sites) (talk : Talked) (stored : Stored) (status : ℕ) (histories : List History) (events : List Event)
        → is_some stored.before ≡ true → (session : SessionFrom net sites talk stored status histories events)
        → EachPartOfSession TurnsKnow net sites talk stored session.opening status histories events session.ends }
    ensures no_newer_in_sessions { (net : Net) (sites : Sites) (talk : Talked) (stored : Stored) (status : ℕ) (histories : List History)
        (events : List Event) → is_some stored.before ≡ true
        → (session : SessionFrom net sites talk stored status histories events)
        → EachPartOfSession PartIsNoNewer net sites talk stored session.opening status histories events session.ends }
    ensures start { (net : Net) (sites : Sites) (opening : List Change) → IsNewestOf opening (at_start net sites opening).air }
{}
