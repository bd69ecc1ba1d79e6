//! All tiles of a frame, listed as their definition says: the tiles of the supertile, each moved so that the
//! base lies on its prototile.
ghost use Rattle.std.specs.Prelude.{IfSome};
ghost use Rattle.theory_walks.specs.Frames.{IsFrameOf};
ghost use Rattle.rule_model.specs.Tiling.{tiling_of};

use crate::placing::back;
use crate::supertile::tiles;
use cyclo_points::motion::Motion;
use lazy_walk::frame::Frame;
use std::alloc::Global;
use tile_place::machine::Machine;
use tile_place::placed_tile::PlacedTile;
use tile_shape::address::Address;
use tile_shape::no_memory::NoMemory;

/// Returns the frame of a base with a seed, if the base fits the rule.
pub fn begun(machine: &Machine, base: &Address, start: u64) -> Option<Frame>
    ensures { IfSome result (IsFrameOf (tiling_of machine.now)) }
{
    if !machine.checked().uses().fits(base) {
        return None;
    }
    Some(Frame::new(base.copy(), start))
}

/// Returns the base's address in its frame.
fn whole(frame: &Frame) -> Address {
    let mut whole = Address::new(frame.base().kind);
    for digit in frame.digits().as_slice() {
        let _ = whole.push_coarse(*digit);
    }
    whole
}

/// Lists the tiles of the frame at its present depth: the tiles of its supertile, moved so that the base lies
/// on its prototile.
pub fn frame_tiles(
    alloc: Global,
    machine: &Machine,
    frame: &Frame,
) -> Result<Vec<PlacedTile>, NoMemory> {
    let whole = whole(frame);
    let top = whole.digits.last().map_or(whole.kind, |digit| digit.parent);
    let back = back(machine, &whole).unwrap_or(Motion::default());
    tiles(alloc, machine, top, frame.depth(), &back)
}
