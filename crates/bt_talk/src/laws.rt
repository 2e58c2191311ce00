// What holds of the lines of scripts in a session.
ghost use Rattle.bt_talk.specs.Scripts.{AskItems};

/// The lines of a script that reads well ask, in a session, the rounds and restarts of that script, where `go` stands in
/// front of each line that ends a round, and behind the last round.
pub fn scripts_are_sessions()
    ensures items { AskItems }
{}
