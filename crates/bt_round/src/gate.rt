// What is told of each call on the book.

/// Something that is told of the calls on the book: of each before it is made, and after it was answered.
///
/// Caller 0 is the centre's worker, 1 the planner, and desk `d` is `d + 1`. The calls of each are counted from 0 in each
/// round.
pub trait Gate {
    /// A call is about to be made.
    fn before(&self, caller: u32, call: u32);

    /// A call was answered.
    fn after(&self, caller: u32, call: u32);
}

/// The gate that does nothing.
#[derive(Clone, Copy)]
pub struct NoGate;

impl Gate for NoGate {
    fn before(&self, _: u32, _: u32) {}

    fn after(&self, _: u32, _: u32) {}
}
