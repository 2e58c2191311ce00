// Where the sites of a centre are.

/// Where the satellite and the terminals of a centre are.
#[derive(Clone, Copy, PartialEq, Eq)]
pub enum Sites {
    /// In its own process: the simulated air.
    Together,
    /// Processes of their own, which hear its lines and say theirs.
    Apart,
}
