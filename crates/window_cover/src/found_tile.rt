//! A tile found.
use cyclo_points::motion::Motion;

/// A tile found: its place, and where its digits are in the list of all digits.
#[derive(Clone, Copy)]
pub(crate) struct FoundTile {
    pub(crate) motion: Motion,
    /// Where its digits begin.
    pub(crate) first: usize,
    pub(crate) kind: u8,
    /// How many digits it has.
    pub(crate) depth: u8,
}
