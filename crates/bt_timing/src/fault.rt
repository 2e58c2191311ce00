// The first fault of a delay file.

use bt_text::LineFault;

/// What is wrong with a line of a delay file.
#[derive(Clone, Copy)]
pub enum TimingCode {
    /// The line leaves the grammar, or is missing.
    G1,
    /// No terminal has that name.
    G2,
    /// The number is out of range, or the delay would be after the change.
    G3,
    /// The terminal had a delay before.
    G4,
    /// A terminal has no delay where the first change of a delay stands, or the end.
    G5,
}

/// Why a delay file was not read.
pub type TimingFault = LineFault<TimingCode>;
