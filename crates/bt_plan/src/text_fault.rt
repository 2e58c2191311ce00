// The first fault of a text.

use bt_text::LineFault;

/// What is wrong with a line of a text.
#[derive(Clone, Copy)]
pub enum TextCode {
    /// A line of a matrix leaves the grammar, is missing, or is one too many.
    X1,
    /// A number of a matrix is out of range.
    X2,
    /// A line of a schedule is missing, out of range, or none of its grammar.
    M1,
    /// A line of a traffic text leaves the grammar.
    T1,
    /// No terminal has that name.
    T2,
    /// The units are out of range.
    T3,
    /// Both ends are the same terminal.
    T4,
    /// The link stood before.
    T5,
    /// A line of a plan is missing, out of range, or none of its grammar.
    P1,
    /// No terminal has that name.
    P2,
    /// A burst stands behind one that it belongs before.
    P3,
}

/// Why a text was not read.
pub type TextFault = LineFault<TextCode>;
