//! A tile to be drawn.
ghost use Rattle.std.specs.Prelude.{◌≡◌};

use crate::part::Part;
use arrayvec::ArrayVec;
use cyclo_points::point::Point;

/// The greatest number of vertices of an outline.
pub const MOST_VERTICES: usize = 24;

/// A tile to be drawn: a tile of the tiling, or two halves glued into a whole tile.
#[derive(Debug, Drop, PartialEq, Eq)]
pub struct Drawn {
    /// The class, which a picture colours: the kind of the tile, or of the first half.
    pub class: u8,
    /// The vertices of the outline, in order around it.
    pub outline: ArrayVec<Point, MOST_VERTICES>,
    /// The tile, or the first half.
    pub first: Part,
    /// The second half of a whole tile, if it has one.
    pub second: Option<Part>,
}

impl Drawn {
    /// Returns an equal tile. Needs no memory. For a caller that gives one tile to several layers.
    pub fn copy(&self) -> Drawn
        ensures { result ≡ self.now }
    {
        let mut outline = ArrayVec::new();
        let _ = outline.try_extend_from_slice(self.outline.as_slice());
        let second = match &self.second {
            Some(second) => Some(second.copy()),
            None => None,
        };
        Drawn {
            class: self.class,
            outline,
            first: self.first.copy(),
            second,
        }
    }
}
