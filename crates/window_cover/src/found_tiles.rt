//! The tiles of a window, as they were found.
ghost use Rattle.std.specs.Prelude.{◌≡◌, length, IfOk};

use crate::covered_tiles::CoveredTiles;
use crate::runs::Runs;
use arrayvec::ArrayVec;
use std::alloc::Global;
use std::marker::Model;
use tile_place::placed_tile::PlacedTile;
use tile_shape::no_memory::NoMemory;
use tile_shape::step::Step;

/// The tiles of a window, as they were found. Contracts see the list of them, ordered by shift, then turn,
/// then kind, although they are not put in order yet.
#[derive(Drop)]
pub struct FoundTiles {
    pub(crate) tiles: Runs,
    /// The digits of the frame.
    pub(crate) above: ArrayVec<Step, 64>,
    /// What gives memory for their order.
    pub(crate) alloc: Global,
}

impl Model for FoundTiles {
    ghost use Rattle.std.specs.Prelude.{List, map};
    ghost use Rattle.tile_place.specs.declared.placed_tile.PlacedTile.{PlacedTile};
    ghost use Rattle.tile_shape.specs.Views.{step_of};
    ghost use Rattle.window_cover.specs.Covered.{tiles_of, AreCovered};
    ghost use Rattle.window_cover.specs.InKeyOrder.{numbers_in_order};
    ghost use Rattle.window_cover.specs.Runs.{AreRuns, seen};

    ghost Value = { List PlacedTile };

    ghost view = { λ f. tiles_of (map step_of f.above.items) (seen f.tiles) (numbers_in_order (seen f.tiles)) };

    ghost invariant = { λ f. record {
      runs : AreRuns f.tiles;
      covered : AreCovered (map step_of f.above.items) (seen f.tiles) (numbers_in_order (seen f.tiles));
    } };
}

impl FoundTiles {
    /// Returns the number of tiles.
    pub fn len(&self) -> usize
        ensures { result ≡ length self.now }
    {
        self.tiles.len()
    }

    /// Puts the tiles in order. Err if memory runs out.
    pub fn in_order(self) -> Result<CoveredTiles, NoMemory>
        ensures { IfOk result (λ tiles. tiles ≡ self) }
    {
        let words = self.tiles.ordered(self.alloc)?;
        Ok(CoveredTiles {
            tiles: self.tiles,
            words,
            above: self.above,
        })
    }
}
