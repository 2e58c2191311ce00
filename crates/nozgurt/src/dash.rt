// Standard input in the place of a file.
use bt_cli::places_of_files;

/// The place of the first `-` that stands for standard input: in the place of a file that is read, and is neither the network
/// nor a journal that is written. Past all words where there is none.
pub fn place_of_dash(words: &[String]) -> usize {
    let (first, end) = places_of_files(words);
    for place in first..end {
        if matches!(words.get(place), Some(word) if word.as_str() == "-") {
            return place;
        }
    }
    words.len()
}
