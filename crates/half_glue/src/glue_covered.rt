//! The whole tiles of a window.
ghost use Rattle.std.specs.Prelude.{IfOk};
ghost use Rattle.rule_model.specs.Tiling.{tiling_of};
ghost use Rattle.window_cover.specs.InOrder.{AreInOrder};
ghost use Rattle.half_glue.specs.Ends.{GluesTo};
ghost use Rattle.half_glue.specs.Given.{AreToGlue};
ghost use Rattle.half_glue.specs.WholeTiles.{AreWholeTilesOf};
ghost use Rattle.half_glue.specs.InOrder.{AreWholesInOrder};
ghost use Rattle.half_glue.specs.Glued.{AreGluedBy};

use crate::covered_order::{ordered, pair_keys};
use crate::covered_pairs::paired;
use crate::glue_fault::GlueFault;
use crate::glue_laws::glue_laws;
use crate::glued_tiles::GluedTiles;
use crate::merge::Merge;
use crate::numbered_tiles::NumberedTiles;
use crate::pairs::Pairs;
use lazy_walk::frame::Frame;
use std::alloc::Global;
use tile_place::machine::Machine;
use window_cover::covered_tiles::CoveredTiles;

/// Like [`glue`](crate::glue::glue), for the tiles of a window, which are in order and distinct. No tile is
/// copied: each whole tile keeps only the numbers of its tiles.
pub fn glue_covered(
    alloc: Global,
    machine: &Machine,
    frame: &mut Frame,
    tiles: CoveredTiles,
) -> Result<GluedTiles, GlueFault>
    requires to_glue { AreToGlue (tiling_of machine.now) frame.old tiles }
    requires in_order { AreInOrder tiles }

    // The least depth, even on an error none beyond. The call succeeds if and only if all given tiles can be
    // glued, unless memory runs out. Each error comes only for its cause.
    ensures ends { GluesTo (tiling_of machine.now) frame.old frame.new tiles result }

    // Exactly the whole tiles of the given tiles, each exactly once and in its place.
    ensures whole_tiles { IfOk result (λ wholes. AreWholeTilesOf (tiling_of machine.now) frame.new tiles
        wholes) }
    ensures in_order { IfOk result (λ wholes. AreWholesInOrder wholes) }
{
    let made = glued(alloc, machine, frame, &tiles)?;
    let grown = frame.copy()?;
    Ok(GluedTiles {
        tiles,
        crossed: made.crossed,
        pairs: made.pairs,
        frame: grown,
    })
}

/// Like [`glue_covered`], by numbers.
fn glued(
    alloc: Global,
    machine: &Machine,
    frame: &mut Frame,
    tiles: &CoveredTiles,
) -> Result<Pairs, GlueFault>
    requires to_glue { AreToGlue (tiling_of machine.now) frame.old tiles.now }
    requires in_order { AreInOrder tiles.now }
    ensures ends { GluesTo (tiling_of machine.now) frame.old frame.new tiles.now result }
    ensures glued { IfOk result (λ made. AreGluedBy (tiling_of machine.now) frame.new tiles.now
        made.crossed.items made.pairs.items) }
{
    glue_laws(machine);
    let made = paired(alloc, machine, frame, tiles)?;
    let outer = made.outer;
    let halves = NumberedTiles {
        tiles,
        crossed: outer.crossed.as_slice(),
    };
    let found = outer.pairs.as_slice();
    let keys = pair_keys(alloc, &halves, found)?;
    let sorted = ordered(alloc, found, keys)?;
    let merge = Merge {
        halves,
        inner: made.inner.as_slice(),
        outer: sorted.as_slice(),
    };
    let pairs = merge.merged(alloc)?;
    Ok(Pairs {
        pairs,
        crossed: outer.crossed,
    })
}
