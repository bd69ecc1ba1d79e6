//! The tiles around a vertex, as they are returned.
ghost use Rattle.std.specs.Prelude.{◌≡◌, []};

use crate::corner::Corner;
use arrayvec::ArrayVec;

/// The tiles around a vertex, counterclockwise from the base.
#[derive(Debug, Drop, PartialEq, Eq)]
pub struct Star {
    /// Each tile, with the number that the vertex has in it.
    pub corners: ArrayVec<Corner, 64>,
}

impl Star {
    /// Makes a star without a tile.
    pub fn new() -> Star
        ensures { result.corners.items ≡ [] }
    {
        Star {
            corners: ArrayVec::new(),
        }
    }
}
