//! Finds the whole tiles of given tiles, by numbers.
ghost use Rattle.std.specs.Prelude.{IfOk};
ghost use Rattle.rule_model.specs.Tiling.{tiling_of};
ghost use Rattle.half_glue.specs.Ends.{GluesTo};
ghost use Rattle.half_glue.specs.Given.{AreToGlue};
ghost use Rattle.half_glue.specs.Pairs.{ArePairsOf};

use crate::glue_fault::GlueFault;
use crate::glue_laws::glue_laws;
use crate::glue_side::glue_sides;
use crate::look_up::sorted_keys;
use crate::pairs::{Pairs, put};
use crate::tile_search::TileSearch;
use lazy_walk::frame::Frame;
use std::alloc::Global;
use tile_place::machine::Machine;
use tile_place::placed_tile::PlacedTile;

/// Finds the whole tiles of given tiles, which it takes in their order. The frame grows to the least depth at
/// which none of their glue edges is on the boundary.
pub(crate) fn paired(
    alloc: Global,
    machine: &Machine,
    frame: &mut Frame,
    tiles: &[PlacedTile],
) -> Result<Pairs, GlueFault>
    requires to_glue { AreToGlue (tiling_of machine.now) frame.old tiles.now }
    ensures ends { GluesTo (tiling_of machine.now) frame.old frame.new tiles.now result }
    ensures paired { IfOk result (λ made. ArePairsOf (tiling_of machine.now) frame.new tiles.now
        made.crossed.items made.pairs.items) }
{
    glue_laws(machine);
    let sides = glue_sides(alloc, machine)?;
    let keys = sorted_keys(alloc, tiles)?;
    let count = tiles.len();
    let mut made = Pairs {
        pairs: Vec::with_capacity(alloc, count)?,
        crossed: Vec::new(alloc),
    };
    let search = TileSearch {
        machine,
        sides: sides.as_slice(),
        tiles,
        keys: keys.as_slice(),
    };
    for number in 0..count {
        let found = search.other_half(frame, number)?;
        put(&mut made, tiles, number, found)?;
    }
    Ok(made)
}
