// What holds of journals, whatever the program does.
ghost use Rattle.std.specs.Prelude.{◌≡◌, ℕ, List};
ghost use Rattle.bt_net.specs.Network.{Net, IsSound};
ghost use Rattle.bt_journal.specs.declared.call.Change.{Change};
ghost use Rattle.bt_journal.specs.Kept.{Keeps};
ghost use Rattle.bt_history.specs.Recovery.{IsFirstNoLine, IsFirstStray, Recovered, marked, marked_in_part};

use bt_journal::{lines_end_once, lines_tell_changes, marks_tell_sizes};

/// On a sound network the bytes of a journal tell one list of changes, or have one first line that is of no change and no
/// mark, or one first line that is of a change or a mark that does not follow; never two of these.
pub fn journals_tell_one_thing()
    ensures changes { (net : Net) (bytes : List ℕ) (a b : List Change) → IsSound net
        → Recovered net bytes a → Recovered net bytes b → a ≡ b }
    ensures no_line { (net : Net) (bytes : List ℕ) (a b : ℕ) → IsSound net
        → IsFirstNoLine net bytes a → IsFirstNoLine net bytes b → a ≡ b }
    ensures stray { (net : Net) (bytes : List ℕ) (a b : ℕ) → IsSound net
        → IsFirstStray net bytes a → IsFirstStray net bytes b → a ≡ b }
    ensures changes_or_no_line { (net : Net) (bytes : List ℕ) (changes : List Change) (number : ℕ) → IsSound net
        → Recovered net bytes changes → IsFirstNoLine net bytes number → ⊥ }
    ensures changes_or_stray { (net : Net) (bytes : List ℕ) (changes : List Change) (number : ℕ) → IsSound net
        → Recovered net bytes changes → IsFirstStray net bytes number → ⊥ }
    ensures no_line_or_stray { (net : Net) (bytes : List ℕ) (a b : ℕ) → IsSound net
        → IsFirstNoLine net bytes a → IsFirstStray net bytes b → ⊥ }
{
    lines_end_once();
    lines_tell_changes();
    marks_tell_sizes();
}

/// What a recovery leaves of bytes that tell changes tells the same ones: those up to the last newline with the mark behind
/// them, where it is owed, or with a first part of it. They keep these changes, and a second recovery leaves them as they are.
pub fn marked_journals_tell_the_same()
    ensures part { (net : Net) (bytes : List ℕ) (changes : List Change) (kept : ℕ) → IsSound net
        → Recovered net bytes changes → Recovered net (marked_in_part net kept bytes) changes }
    ensures marked { (net : Net) (bytes : List ℕ) (changes : List Change) → IsSound net
        → Recovered net bytes changes → Recovered net (marked net bytes) changes }
    ensures keeps { (net : Net) (bytes : List ℕ) (changes : List Change) → IsSound net
        → Recovered net bytes changes → Keeps net (marked net bytes) changes }
    ensures again { (net : Net) (bytes : List ℕ) (changes : List Change) → IsSound net
        → Recovered net bytes changes → marked net (marked net bytes) ≡ marked net bytes }
{
    lines_end_once();
    lines_tell_changes();
    marks_tell_sizes();
}
