// What holds of the lines of changes whatever the program does.
ghost use Rattle.std.specs.Prelude.{◌≡◌, ◌≢◌, ◌≤◌, ◌++◌, ◌∷◌, [], ℕ, List, IsTrue, length};
ghost use Rattle.bt_text.specs.Text.{lines, lacks, spaced};
ghost use Rattle.bt_net.specs.Network.{Net, IsSound};
ghost use Rattle.bt_journal.specs.declared.call.Change.{Change};
ghost use Rattle.bt_journal.specs.JournalLines.{change_parts, change_line, edition_said, IsChangeInRange};
ghost use Rattle.bt_journal.specs.Mark.{mark_words, mark_line, IsMarkOf};

/// On a sound network the line of a change in range is a text without a newline, and one newline behind it: a text that
/// begins with the line has it as its first line.
pub fn lines_end_once()
    ensures line { (net : Net) (number : ℕ) (change : Change)
        → change_line net number change ≡ spaced (change_parts net number change) ++ 10 ∷ [] }
    ensures once { (net : Net) (number : ℕ) (change : Change) → IsSound net
        → IsChangeInRange net number change
        → IsTrue (lacks 10 (spaced (change_parts net number change))) }
    ensures cut { (net : Net) (number : ℕ) (change : Change) (rest : List ℕ) → IsSound net
        → IsChangeInRange net number change
        → lines (change_line net number change ++ rest)
        ≡ spaced (change_parts net number change) ∷ lines rest }
{}

/// On a sound network no two changes in range have one line, and the line of an edit says the edition that it makes.
pub fn lines_tell_changes()
    ensures change { (net : Net) (number other : ℕ) (change changed : Change) → IsSound net
        → IsChangeInRange net number change → IsChangeInRange net other changed
        → change_line net number change ≡ change_line net other changed → change ≡ changed }
    ensures edition { (net : Net) (number other : ℕ) (change changed : Change) → IsSound net
        → IsChangeInRange net number change → IsChangeInRange net other changed
        → change_line net number change ≡ change_line net other changed
        → edition_said number change ≡ edition_said other changed }
{}

/// A mark is a text without a newline, and one newline behind it, of at most 16 bytes; it says its numbers of beams and of terminals, and on a
/// sound network it is the line of no change in range.
pub fn marks_tell_sizes()
    ensures line { (beams terminals : ℕ) → mark_line beams terminals ≡ spaced (mark_words beams terminals) ++ 10 ∷ [] }
    ensures short { (beams terminals : ℕ) → IsMarkOf beams terminals → length (mark_line beams terminals) ≤ 16 }
    ensures once { (beams terminals : ℕ) → IsMarkOf beams terminals → IsTrue (lacks 10 (spaced (mark_words beams terminals))) }
    ensures cut { (beams terminals : ℕ) (rest : List ℕ) → IsMarkOf beams terminals
        → lines (mark_line beams terminals ++ rest) ≡ spaced (mark_words beams terminals) ∷ lines rest }
    ensures beams { (beams terminals other another : ℕ) → IsMarkOf beams terminals → IsMarkOf other another
        → mark_line beams terminals ≡ mark_line other another → beams ≡ other }
    ensures terminals { (beams terminals other another : ℕ) → IsMarkOf beams terminals → IsMarkOf other another
        → mark_line beams terminals ≡ mark_line other another → terminals ≡ another }
    ensures no_change { (net : Net) (number : ℕ) (change : Change) (beams terminals : ℕ) → IsSound net
        → IsChangeInRange net number change → IsMarkOf beams terminals
        → mark_line beams terminals ≢ change_line net number change }
{}
