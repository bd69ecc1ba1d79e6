//! A run of tiles.
use cyclo_points::point::Point;

/// A run: how far its leaves are moved, if at all, and where the digits coarser than theirs are in the list
/// of all such digits.
#[derive(Clone, Copy)]
pub(crate) struct Run {
    pub(crate) shift: Option<Point>,
    /// Where its digits begin.
    pub(crate) first: usize,
    /// How many digits it has.
    pub(crate) depth: u8,
}
