// What a crash leaves of what was answered, in every session.
ghost use Rattle.std.specs.Prelude.{◌≡◌, ℕ, true, List};
ghost use Rattle.std.specs.Option.{is_some};
ghost use Rattle.bt_net.specs.Network.{Net};
ghost use Rattle.bt_script.specs.declared.sites.Sites.{Sites};
ghost use Rattle.bt_air.specs.declared.event.Event.{Event};
ghost use Rattle.bt_report.specs.Stored.{Stored};
ghost use Rattle.bt_centre.specs.declared.history.History.{History};
ghost use Rattle.bt_centre.specs.Lasting.{AnsweredLasts};
ghost use Rattle.bt_centre.specs.Session.{SessionFrom};
ghost use Rattle.bt_centre.specs.Talked.{Talked};

/// In every session over a store that tells its bytes, what was answered survives: where that store tells what a crash may leave,
/// one at any moment from an answer on, up to the end of the session, leaves a journal that is recovered to at least the changes
/// that were made up to that answer. So it does from the first piece on, before any line.
pub fn answered_lines_survive()
    ensures survives { (net : Net) (sites : Sites) (talk : Talked) (stored : Stored) (status : ℕ) (histories : List History) (events : List Event)
        → is_some stored.before ≡ true → (session : SessionFrom net sites talk stored status histories events)
        → AnsweredLasts net sites talk stored session.opening status histories events session.ends }
{}
