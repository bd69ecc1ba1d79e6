//! A part of a tile to be drawn.
ghost use Rattle.std.specs.Prelude.{◌≡◌};

use cyclo_points::motion::Motion;
use tile_shape::address::Address;

/// A part of a tile to be drawn: a tile of the tiling in its place, with its kind, the motion of its
/// prototile, and its address.
#[derive(Debug, Drop, PartialEq, Eq)]
pub struct Part {
    pub kind: u8,
    pub motion: Motion,
    pub addr: Address,
}

impl Part {
    /// Returns an equal part. Needs no memory.
    pub fn copy(&self) -> Part
        ensures { result ≡ self.now }
    {
        Part {
            kind: self.kind,
            motion: self.motion,
            addr: self.addr.copy(),
        }
    }
}
