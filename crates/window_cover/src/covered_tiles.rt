//! The tiles of a window, to be read one at a time.
ghost use Rattle.std.specs.Prelude.{◌≡◌, ◌<◌, Some, length, slice_get, IfOk};

use crate::fields::tile_number;
use crate::runs::Runs;
use arrayvec::ArrayVec;
use cyclo_points::motion::Motion;
use std::alloc::Global;
use std::marker::Model;
use tile_place::placed_tile::PlacedTile;
use tile_shape::address::Address;
use tile_shape::no_memory::NoMemory;
use tile_shape::step::Step;

/// The tiles of a window, ordered by shift, then turn, then kind. Contracts see the list of them. The memory
/// for each tile is a run, a leaf and a word.
#[derive(Drop)]
pub struct CoveredTiles {
    pub(crate) tiles: Runs,
    /// A word for each tile, in order, with the number of the tile in its low bits.
    pub(crate) words: Vec<u64>,
    /// The digits of the frame.
    pub(crate) above: ArrayVec<Step, 64>,
}

impl Model for CoveredTiles {
    ghost use Rattle.std.specs.Prelude.{List, map};
    ghost use Rattle.tile_place.specs.declared.placed_tile.PlacedTile.{PlacedTile};
    ghost use Rattle.tile_shape.specs.Views.{step_of};
    ghost use Rattle.window_cover.specs.Covered.{tiles_of, AreCovered};
    ghost use Rattle.window_cover.specs.Runs.{AreRuns, seen};
    ghost use Rattle.window_cover.specs.Words.{tile_number};

    ghost Value = { List PlacedTile };

    ghost view = { λ c. tiles_of (map step_of c.above.items) (seen c.tiles) (map tile_number c.words.items) };

    ghost invariant = { λ c. record {
      runs : AreRuns c.tiles;
      covered : AreCovered (map step_of c.above.items) (seen c.tiles) (map tile_number c.words.items);
    } };
}

impl CoveredTiles {
    /// Returns the number of tiles.
    pub fn len(&self) -> usize
        ensures { result ≡ length self.now }
    {
        self.words.len()
    }

    /// Returns the tile at a place in the order, from 0.
    pub fn tile(&self, place: usize) -> PlacedTile
        requires below { place < length self.now }
        ensures { slice_get self.now place ≡ Some result }
    {
        let number = tile_number(self.words[place]);
        self.tiles.lifted(self.above.as_slice(), number as usize)
    }

    /// Replaces a kind, a motion and an address by those of the tile at a place in the order.
    pub fn put(&self, place: usize, kind: &mut u8, motion: &mut Motion, addr: &mut Address)
        requires below { place < length self.now }
        ensures { slice_get self.now place ≡ Some
            (record { kind = kind.new; motion = motion.new; addr = addr.new }) }
    {
        let number = tile_number(self.words[place]);
        let above = self.above.as_slice();
        self.tiles
            .put_lifted(above, number as usize, kind, motion, addr);
    }

    /// Returns the list of all tiles. Err if memory runs out.
    pub fn listed(&self, alloc: Global) -> Result<Vec<PlacedTile>, NoMemory>
        ensures { IfOk result (λ tiles. tiles.items ≡ self.now) }
    {
        let count = self.len();
        let mut tiles = Vec::with_capacity(alloc, count)?;
        for place in 0..count {
            tiles.push(self.tile(place))?;
        }
        Ok(tiles)
    }
}
