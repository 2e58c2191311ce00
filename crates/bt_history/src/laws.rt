// What holds of histories, whatever the program does.
ghost use Rattle.std.specs.Prelude.{◌≡◌, ◌++◌, ◌∷◌, [], All, List, length, map};
ghost use Rattle.std.specs.Option.{is_some};
ghost use Rattle.bt_net.specs.Network.{Net, IsSound};
ghost use Rattle.bt_demand.specs.Flyable.{IsFlyable};
ghost use Rattle.bt_journal.specs.declared.call.Call.{Call};
ghost use Rattle.bt_journal.specs.declared.call.Change.{Change};
ghost use Rattle.bt_journal.specs.declared.entry.Entry.{Entry};
ghost use Rattle.bt_journal.specs.declared.reply.Reply.{Reply};
ghost use Rattle.bt_journal.specs.Journal.{changes_of};
ghost use Rattle.bt_shared.specs.declared.object.TurnEntry as line;
ghost use Rattle.bt_shared.specs.Legal as line_legal;
ghost use Rattle.bt_history.specs.Book.{Books, book_steps, journal_entry};
ghost use Rattle.bt_history.specs.Changes.{installs, newest, plans};
ghost use Rattle.bt_history.specs.Causes.{Follows, IsGoodForItsEdition};
ghost use Rattle.bt_history.specs.Crash.{Last};
ghost use Rattle.bt_history.specs.Store.{RoseBy, lost_of};
ghost use Rattle.bt_history.specs.Machine.{State, state_after, state_from, Legal, NamesBeams, Step};

/// A legal history stays legal with one step more, from the state that it came to; and the state after it is then
/// the one after that step.
pub fn histories_grow_by_steps()
    ensures legal { (net : Net) (opening : List Change) (history : List Entry) (entry : Entry) (after : State)
        → Legal net opening history → Step net (state_after opening history) entry.call entry.reply after
        → Legal net opening (history ++ entry ∷ []) }
    ensures state { (net : Net) (opening : List Change) (history : List Entry) (entry : Entry) (after : State)
        → Step net (state_after opening history) entry.call entry.reply after
        → after ≡ state_after opening (history ++ entry ∷ []) }
{}

/// A legal history that begins with changes that follow leaves changes that follow.
pub fn legal_changes_follow()
    ensures follows { (net : Net) (opening : List Change) (history : List Entry) → Follows net opening
        → Legal net opening history → Follows net (opening ++ changes_of history) }
{}

/// Each plan that is installed after changes that follow can be flown, the empty one too, and so can the newest.
pub fn installed_plans_can_be_flown()
    ensures all { (net : Net) (changes : List Change) → IsSound net → Follows net changes
        → All (IsFlyable net) (plans changes) }
    ensures newest { (net : Net) (changes : List Change) → IsSound net → Follows net changes
        → IsFlyable net (newest changes) }
{}

/// What a turn lock makes of the calls on a book with a legal history lengthens that history: with the entries of these
/// calls behind it, it is legal from its opening changes on, and leads to the state of the book at the end. The network
/// stays, and the store's count of faults rose at least as often as a change was lost.
pub fn locked_books_are_legal()
    ensures legal { (start end : Books) (opening : List Change) (history : List Entry) (log : List (line.TurnEntry Call Reply))
        → Legal start.net opening history → start.state ≡ state_after opening history → line_legal.Legal book_steps start log end
        → Legal start.net opening (history ++ map journal_entry log) }
    ensures state { (start end : Books) (opening : List Change) (history : List Entry) (log : List (line.TurnEntry Call Reply))
        → start.state ≡ state_after opening history → line_legal.Legal book_steps start log end
        → end.state ≡ state_after opening (history ++ map journal_entry log) }
    ensures net { (start end : Books) (log : List (line.TurnEntry Call Reply)) → line_legal.Legal book_steps start log end
        → end.net ≡ start.net }
    ensures rose { (start end : Books) (log : List (line.TurnEntry Call Reply)) → line_legal.Legal book_steps start log end
        → RoseBy (length (lost_of (map journal_entry log))) start.faults end.faults }
{}

/// A book that a turn lock handed round is in the state that its calls led to from the one at the start, and its changes
/// follow where those at the start do. The changes at the start last, where they last at the start.
pub fn locked_books_go_on()
    ensures state { (start end : Books) (log : List (line.TurnEntry Call Reply)) → line_legal.Legal book_steps start log end
        → end.state ≡ state_from start.state (map journal_entry log) }
    ensures follow { (start end : Books) (log : List (line.TurnEntry Call Reply)) → Follows start.net start.state.changes
        → line_legal.Legal book_steps start log end → Follows start.net end.state.changes }
    ensures tells { (start end : Books) (log : List (line.TurnEntry Call Reply)) → line_legal.Legal book_steps start log end
        → is_some end.told ≡ is_some start.told }
    ensures last { (start end : Books) (log : List (line.TurnEntry Call Reply)) → Last start.net start.state.changes start.crashes start.crashes
        → line_legal.Legal book_steps start log end → Last start.net start.state.changes start.crashes end.crashes }
{}

/// Each call that a turn lock makes on a book is answered by a step of the machine, from the state that the calls before it
/// led to, and after changes that follow where those at the start do.
pub fn locked_calls_are_steps()
    ensures step { (start end : Books) (before : List (line.TurnEntry Call Reply)) (entry : line.TurnEntry Call Reply)
        → Follows start.net start.state.changes → line_legal.Legal book_steps start (before ++ entry ∷ []) end
        → (old : State) × (new : State) × (old ≡ state_from start.state (map journal_entry before))
        × Follows start.net old.changes × Step start.net old entry.call entry.reply new }
{}

/// Each plan that changes that follow install carries exactly the demand of its edition, in the least length.
pub fn installed_plans_are_good()
    ensures good { (net : Net) (changes : List Change) → Follows net changes
        → All (IsGoodForItsEdition net changes) (installs changes) }
{}

/// The beams that a reply names are the network's.
pub fn replies_name_beams_of_the_network()
    ensures beams { (net : Net) (old : State) (call : Call) (reply : Reply) (new : State)
        → IsSound net → Step net old call reply new → NamesBeams net reply }
{}
