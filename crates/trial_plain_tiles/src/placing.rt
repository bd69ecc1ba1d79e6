//! Tiles in their places, each by its address alone, if the calls' conditions hold.
ghost use Rattle.std.specs.Prelude.{◌≤◌, ◌^◌, All, IfSome, length};
ghost use Rattle.cyclo_points.specs.Point.{IsWithin};

use crate::small::near;
use arrayvec::ArrayVec;
use cyclo_points::motion::Motion;
use cyclo_points::movement::{compose, inverse};
use cyclo_points::point::Point;
use cyclo_points::rotation::turn;
use tile_place::machine::Machine;
use tile_place::placed_tile::PlacedTile;
use tile_shape::address::Address;

/// Returns an equal tile.
pub fn copy(tile: &PlacedTile) -> PlacedTile {
    PlacedTile {
        kind: tile.kind,
        motion: tile.motion,
        addr: tile.addr.copy(),
    }
}

/// Returns the motion with this turn and this shift, in the machine's order.
pub fn motion(machine: &Machine, steps: u8, shift: &Point) -> Option<Motion> {
    let order = machine.checked().order();
    if !near(shift) {
        return None;
    }
    Some(Motion {
        turn: steps % order.n(),
        shift: turn(order, 0, shift),
    })
}

/// Returns the tile of an address in its supertile, moved by `at`, if it exists.
pub fn placed(machine: &Machine, addr: &Address, at: &Motion) -> Option<PlacedTile> {
    let order = machine.checked().order();
    if !machine.checked().uses().fits(addr) || at.turn >= order.n() || !near(&at.shift) {
        return None;
    }
    let own = machine.place(addr).ok()?;
    if !near(&own.shift) {
        return None;
    }
    Some(PlacedTile {
        kind: addr.kind,
        motion: compose(order, at, &own),
        addr: addr.copy(),
    })
}

/// Returns the motion back of a tile of a supertile.
pub fn back(machine: &Machine, addr: &Address) -> Option<Motion> {
    if !machine.checked().uses().fits(addr) {
        return None;
    }
    let order = machine.checked().order();
    let own = machine.place(addr).ok()?;
    if own.turn >= order.n() || !near(&own.shift) {
        return None;
    }
    Some(inverse(order, &own))
}

/// Returns the vertices of a placed tile.
pub fn corners(machine: &Machine, tile: &PlacedTile) -> Option<ArrayVec<Point, 12>>
    ensures near { IfSome result (λ corners. All (IsWithin (2 ^ 24)) corners.items) }
    ensures at_least_3 { IfSome result (λ corners. 3 ≤ length corners.items) }
{
    let order = machine.checked().order();
    let exists = tile.kind < machine.checked().uses().kinds();
    if !exists || tile.motion.turn >= order.n() || !near(&tile.motion.shift) {
        return None;
    }
    let at = Motion {
        turn: tile.motion.turn,
        shift: turn(order, 0, &tile.motion.shift),
    };
    let one = Point { c: [1, 0, 0, 0] };
    if !near(&at.shift) || !near(&one) {
        return None;
    }
    machine.outline(tile.kind, &one, &at).ok()
}
