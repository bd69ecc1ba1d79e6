//! Motions, where their numbers are small enough.
use cyclo_points::arithmetic::refused;
use cyclo_points::motion::Motion;
use cyclo_points::movement::{apply, compose};
use cyclo_points::order::Order;
use cyclo_points::point::Point;
use cyclo_points::product::mul;
use edge_tables::steps::Steps;
use std::sync::ledger::Ledger;
use tile_place::machine::Machine;
use tile_shape::address::Address;
use transducer_core::crossing::Crossing;
use transducer_core::outside::Outside;

/// Where a motion takes a point.
pub(crate) fn moved(order: Order, m: &Motion, p: &Point) -> Option<Point> {
    if m.turn >= order.n() || refused(&m.shift) || refused(p) {
        return None;
    }
    Some(apply(order, m, p))
}

/// The motion m and then g.
pub(crate) fn followed(order: Order, m: &Motion, g: &Motion) -> Option<Motion> {
    if m.turn >= order.n() || g.turn >= order.n() || refused(&m.shift) || refused(&g.shift) {
        return None;
    }
    Some(compose(order, g, m))
}

/// The product of a power of the factor and a point of a rule.
pub(crate) fn times(order: Order, power: &Point, p: &Point) -> Option<Point> {
    let small = p.c.iter().all(|a| *a <= 64 && *a >= -64);
    if refused(power) || !small {
        return None;
    }
    Some(mul(order, power, p))
}

/// What is across an edge; None where there is no such tile or edge.
pub(crate) fn across<L: Ledger>(
    machine: &Machine,
    addr: &Address,
    edge: u8,
    steps: &mut Steps<L>,
) -> Option<Result<Crossing, Outside>> {
    let checked = machine.checked();
    if !checked.uses().fits(addr) || edge >= checked.tables().edges(addr.kind) {
        return None;
    }
    Some(machine.cross(addr, edge, steps))
}

/// The motion that glues an edge across to an edge; None where the two don't meet.
pub(crate) fn glue_motion(
    machine: &Machine,
    kind: u8,
    edge: u8,
    other: u8,
    other_edge: u8,
) -> Option<Motion> {
    let tables = machine.checked().tables();
    if kind >= tables.kinds() || other >= tables.kinds() {
        return None;
    }
    if edge >= tables.edges(kind) || other_edge >= tables.edges(other) {
        return None;
    }
    if !machine.meets(kind, edge, other, other_edge) {
        return None;
    }
    Some(machine.glue_motion(kind, edge, other, other_edge))
}
