//! Finds the whole tiles of the tiles of a window, by numbers.
ghost use Rattle.std.specs.Prelude.{◌++◌, length, IfOk};
ghost use Rattle.rule_model.specs.Tiling.{tiling_of};
ghost use Rattle.window_cover.specs.InOrder.{AreInOrder};
ghost use Rattle.half_glue.specs.Ends.{GluesTo};
ghost use Rattle.half_glue.specs.Given.{AreToGlue};
ghost use Rattle.half_glue.specs.Inner.{AreRising};
ghost use Rattle.half_glue.specs.Pairs.{ArePairsOf};

use crate::glue_fault::GlueFault;
use crate::glue_laws::glue_laws;
use crate::glue_side::glue_sides;
use crate::guesses::Guesses;
use crate::inner_pairs::inner_pairs;
use crate::pairs::{Pair, Pairs, put_covered};
use crate::window_search::WindowSearch;
use lazy_walk::frame::Frame;
use std::alloc::Global;
use tile_place::machine::Machine;
use window_cover::covered_tiles::CoveredTiles;

/// The whole tiles of the tiles of a window, by numbers.
#[derive(Drop)]
pub(crate) struct CoveredPairs {
    /// Those whose tiles are all tiles of the window, by the numbers of their first tiles.
    pub(crate) inner: Vec<Pair>,
    /// The others, in the order found, and the tiles crossed to.
    pub(crate) outer: Pairs,
}

/// Finds the whole tiles of the tiles of a window. An edge is crossed only from a tile that is in none of the
/// whole tiles found without. The frame grows to the least depth at which none of the tiles' glue edges is on
/// the boundary.
pub(crate) fn paired(
    alloc: Global,
    machine: &Machine,
    frame: &mut Frame,
    tiles: &CoveredTiles,
) -> Result<CoveredPairs, GlueFault>
    requires to_glue { AreToGlue (tiling_of machine.now) frame.old tiles.now }
    requires in_order { AreInOrder tiles.now }
    ensures ends { GluesTo (tiling_of machine.now) frame.old frame.new tiles.now result }
    ensures paired { IfOk result (λ made. ArePairsOf (tiling_of machine.now) frame.new tiles.now
        made.outer.crossed.items
        (made.inner.items ++ made.outer.pairs.items)) }
    ensures rising { IfOk result (λ made. AreRising (length tiles.now) made.inner.items) }
{
    glue_laws(machine);
    let sides = glue_sides(alloc, machine)?;
    let mut guesses = Guesses::new(alloc, tiles)?;
    let count = tiles.len();
    let mut taken = vec![in alloc; false; count]?;
    let search = WindowSearch {
        machine,
        sides: sides.as_slice(),
        tiles,
    };
    let inner = inner_pairs(alloc, &search, &mut guesses, taken.as_mut_slice())?;
    let mut outer = Pairs {
        pairs: Vec::new(alloc),
        crossed: Vec::new(alloc),
    };
    for number in 0..count {
        if taken[number] {
            continue;
        }
        let found = search.other_half(frame, &mut guesses, number)?;
        put_covered(&mut outer, tiles, number, found)?;
    }
    Ok(CoveredPairs { inner, outer })
}
