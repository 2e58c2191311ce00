// Laws of the texts: what is written is read again, and nothing else is read as it.
ghost use Rattle.std.specs.Prelude.{◌≡◌, ℕ, ◌^◌, ◌<◌, List, ◌∷◌, ◌++◌, [], map, length, decimal, All, IsTrue};
ghost use Rattle.std.specs.List.{list_all};
ghost use Rattle.bt_text.specs.Text.{words, lines, number_of, numbers_of, spaced, ended, lacks};

/// A number is read back from its decimal digits, and no other word is read as that number.
pub fn numbers_have_one_spelling()
    ensures read { (n : ℕ) → n < 2 ^ 64 → number_of (decimal n) ≡ Some n }
    ensures spelled { (word : List ℕ) → (n : ℕ) → n < 2 ^ 64 → number_of word ≡ Some n
        → word ≡ decimal n }
{}

/// A line of numbers is read back, and no other line is read as these numbers.
pub fn number_lines_have_one_spelling()
    ensures read { (ns : List ℕ) → 0 < length ns → All (λ n. n < 2 ^ 64) ns
        → numbers_of (words (spaced (map decimal ns))) ≡ Some ns }
    ensures spelled { (line : List ℕ) → (ns : List ℕ) → All (λ n. n < 2 ^ 64) ns
        → numbers_of (words line) ≡ Some ns → line ≡ spaced (map decimal ns) }
{}

/// Words without a space, joined by single spaces, are cut apart again; every line is its words so joined.
pub fn words_have_one_line()
    ensures read { (ws : List (List ℕ)) → 0 < length ws → IsTrue (list_all (lacks 32) ws)
        → words (spaced ws) ≡ ws }
    ensures spelled { (line : List ℕ) → spaced (words line) ≡ line }
{}

/// Lines without a newline inside, each ended by one, are cut apart again, with the empty rest behind them;
/// every text that is cut so is these lines.
pub fn lines_have_one_text()
    ensures read { (ls : List (List ℕ)) → IsTrue (list_all (lacks 10) ls)
        → lines (ended ls) ≡ ls ++ [] ∷ [] }
    ensures spelled { (text : List ℕ) → (ls : List (List ℕ)) → lines text ≡ ls ++ [] ∷ []
        → text ≡ ended ls }
{}
