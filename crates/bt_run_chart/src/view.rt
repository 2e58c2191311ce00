// What is asked of a picture.
use bt_frame::TermNo;

/// Superframes by their numbers, both ends included.
#[derive(Clone, Copy)]
pub struct Superframes {
    pub first: u64,
    pub last: u64,
}

/// Which superframes of a run are drawn, and how.
#[derive(Clone, Copy)]
pub struct View {
    /// Superframes of nothing but routine are folded.
    pub folds: bool,
    /// These are drawn alone; all where there are none.
    pub range: Option<Superframes>,
}

/// What is asked of a picture of a run.
#[derive(Clone, Copy)]
pub struct Asked<'a> {
    /// The terminals that have lanes; where there are none, the first twelve that send or hear.
    pub chosen: &'a [TermNo],
    pub view: View,
}
