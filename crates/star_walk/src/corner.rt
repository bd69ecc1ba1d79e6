//! A tile and one of its vertices.
ghost use Rattle.std.specs.Prelude.{◌≡◌};

use cyclo_points::motion::Motion;
use tile_place::placed_tile::PlacedTile;
use tile_shape::address::Address;

/// A placed tile, and the number of one of its vertices.
#[derive(Debug, Drop, PartialEq, Eq)]
pub struct Corner {
    /// The tile, with its address and its motion in the base's frame.
    pub tile: PlacedTile,
    /// The number of its vertex.
    pub vertex: u8,
}

impl Default for Corner {
    /// Returns a placeholder for a corner.
    fn default() -> Corner {
        Corner {
            tile: PlacedTile {
                kind: 0,
                motion: Motion::default(),
                addr: Address::new(0),
            },
            vertex: 0,
        }
    }
}

impl Corner {
    /// Returns an equal corner, without memory.
    pub(crate) fn copy(&self) -> Corner
        ensures { result ≡ self.now }
    {
        Corner {
            tile: PlacedTile {
                kind: self.tile.kind,
                motion: self.tile.motion,
                addr: self.tile.addr.copy(),
            },
            vertex: self.vertex,
        }
    }
}
