//! Returns the tiles found.
ghost use Rattle.std.specs.Prelude.{◌≡◌, All, [], length, map, IfOk};
ghost use Rattle.std.specs.List.Sorted.{IsPermutation};
ghost use Rattle.rule_model.specs.declared.rule.Rule.{Rule};
ghost use Rattle.rule_model.specs.Tiling.{tiling_of};
ghost use Rattle.tile_place.specs.Searched.{placed_in};
ghost use Rattle.lazy_walk.specs.Standing.{Stands};
ghost use Rattle.window_cover.specs.Checked.{IsCheckedRule};
ghost use Rattle.window_cover.specs.Covered.{placed_as};
ghost use Rattle.window_cover.specs.InOrder.{AreInOrder, AreSorted, numbers_placed};
ghost use Rattle.theory_windows.specs.Distinct.{AreDistinct};
ghost use Rattle.window_cover.specs.Lifted.{CanBeLifted};
ghost use Rattle.window_cover.specs.Right.{IsRight};
ghost use Rattle.window_cover.specs.Windows.{AreDrawn, CoverWindow};

use crate::cover::Cover;
use crate::found_tiles::FoundTiles;
use crate::laws::end_laws;
use crate::runs::Runs;
use lazy_walk::frame::Frame;
use seeded_growth::laws::grown_fits_law;
use std::alloc::Global;
use tile_place::placed_tile::PlacedTile;
use tile_shape::no_memory::NoMemory;

impl Cover {
    /// Returns the tiles found, lifted to the frame's depth and ordered by shift, then turn, then kind. Fails
    /// only if memory runs out.
    pub fn finish(self, alloc: Global, frame: &Frame) -> Result<Vec<PlacedTile>, NoMemory>
        requires none_open { self.border ≡ [] }
        requires no_deeper { All (CanBeLifted frame.now) self.found }
        // Each tile comes as often as it was found. The frame's digits follow its own.
        ensures lifted { IfOk result (λ tiles. IsPermutation (map (placed_as frame.now.digits) self.found)
            tiles.items) }
        ensures sorted { IfOk result (λ tiles. AreSorted tiles.items) }
        ensures as_many { IfOk result (λ tiles. length tiles.items ≡ length self.found) }
        // If the state is right for a rule, these are exactly the tiles of the frame that meet the window.
        ensures drawn { IfOk result
            (λ tiles. (r : Rule) → IsCheckedRule r → IsRight (tiling_of r) frame.now self
            → AreDrawn (tiling_of r) frame.now self.window (map (placed_in r.order) tiles.items)) }
        ensures covered { IfOk result (λ tiles. (r : Rule) → IsCheckedRule r
            → IsRight (tiling_of r) frame.now self
            → CoverWindow (tiling_of r) frame.now self.window (map (placed_in r.order) tiles.items)) }
        ensures stand { IfOk result
            (λ tiles. (r : Rule) → IsCheckedRule r → IsRight (tiling_of r) frame.now self
            → All (Stands (tiling_of r) frame.now) tiles.items) }
        ensures in_order { IfOk result (λ tiles. (r : Rule) → IsCheckedRule r
            → IsRight (tiling_of r) frame.now self → AreInOrder tiles.items) }
    {
        let found = self.arranged(alloc, frame)?;
        let tiles = found.in_order()?;
        tiles.listed(alloc)
    }

    /// Like [`finish`](Self::finish), but the tiles are left as they were found.
    pub fn arranged(self, alloc: Global, frame: &Frame) -> Result<FoundTiles, NoMemory>
        requires none_open { self.border ≡ [] }
        requires no_deeper { All (CanBeLifted frame.now) self.found }
        // Each tile comes as often as it was found. The frame's digits follow its own.
        ensures lifted { IfOk result (λ tiles. IsPermutation (map (placed_as frame.now.digits) self.found)
            tiles) }
        ensures sorted { IfOk result (λ tiles. AreSorted tiles) }
        ensures as_many { IfOk result (λ tiles. length tiles ≡ length self.found) }
        // If the state is right for a rule, these are exactly the tiles of the frame that meet the window.
        ensures drawn { IfOk result
            (λ tiles. (r : Rule) → IsCheckedRule r → IsRight (tiling_of r) frame.now self
            → AreDrawn (tiling_of r) frame.now self.window (map (placed_in r.order) tiles)) }
        ensures covered { IfOk result (λ tiles. (r : Rule) → IsCheckedRule r
            → IsRight (tiling_of r) frame.now self
            → CoverWindow (tiling_of r) frame.now self.window (map (placed_in r.order) tiles)) }
        ensures stand { IfOk result
            (λ tiles. (r : Rule) → IsCheckedRule r → IsRight (tiling_of r) frame.now self
            → All (Stands (tiling_of r) frame.now) tiles) }
        ensures in_order { IfOk result (λ tiles. (r : Rule) → IsCheckedRule r
            → IsRight (tiling_of r) frame.now self → AreInOrder tiles) }
        // If no two tiles have the same place and kind, the order is strict.
        ensures distinct_in_order { IfOk result (λ tiles. AreDistinct (map numbers_placed tiles)
            → AreInOrder tiles) }
    {
        end_laws();
        grown_fits_law();
        let runs = Runs::of(alloc, self)?;
        Ok(runs.arranged(alloc, frame))
    }
}
