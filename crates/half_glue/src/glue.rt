//! Whole tiles.
ghost use Rattle.std.specs.Prelude.{IfOk};
ghost use Rattle.rule_model.specs.Tiling.{tiling_of};
ghost use Rattle.half_glue.specs.Ends.{GluesTo};
ghost use Rattle.half_glue.specs.Given.{AreToGlue};
ghost use Rattle.half_glue.specs.WholeTiles.{AreWholeTilesOf};
ghost use Rattle.half_glue.specs.InOrder.{AreWholesInOrder};

use crate::arranged::arranged;
use crate::glue_fault::GlueFault;
use crate::glue_laws::glue_laws;
use crate::paired::paired;
use crate::whole_tile::WholeTile;
use lazy_walk::frame::Frame;
use std::alloc::Global;
use tile_place::machine::Machine;
use tile_place::placed_tile::PlacedTile;

/// Joins half tiles into whole tiles. Each given tile with a glue edge is joined with the tile across it,
/// whether that one is given or not; one whole tile stands for both. A tile without a glue edge stays alone.
///
/// The whole tiles are ordered by shift, then turn, then kind of their first halves. Their addresses have the
/// frame's depth on return. The frame grows to the least depth, not below the one it has, at which no glue
/// edge of a given tile is on the boundary.
///
/// # Errors
///
/// - `DepthLimit`: the glue edge of a given tile is on the boundary at depth 64.
/// - `CoordLimit`: the tile across the glue edge of a given tile has a shift with a coefficient above 2^24 in
///   absolute value.
/// - `NoMemory`: memory ran out.
pub fn glue(
    alloc: Global,
    machine: &Machine,
    frame: &mut Frame,
    tiles: &Vec<PlacedTile>,
) -> Result<Vec<WholeTile>, GlueFault>
    requires to_glue { AreToGlue (tiling_of machine.now) frame.old tiles.now.items }

    // The least depth, even on an error none beyond. The call succeeds if and only if all given tiles can be
    // glued, unless memory runs out. Each error comes only for its cause.
    ensures ends { GluesTo (tiling_of machine.now) frame.old frame.new tiles.now.items result }

    // Exactly the whole tiles of the given tiles, each exactly once and in its place.
    ensures whole_tiles { IfOk result (λ wholes. AreWholeTilesOf (tiling_of machine.now) frame.new
        tiles.now.items wholes.items) }
    ensures in_order { IfOk result (λ wholes. AreWholesInOrder wholes.items) }
{
    glue_laws(machine);
    let given = tiles.as_slice();
    let made = paired(alloc, machine, frame, given)?;
    Ok(arranged(alloc, frame, given, made)?)
}
