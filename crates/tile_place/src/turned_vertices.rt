//! The vertices of all kinds, in every turn.
ghost use Rattle.std.specs.Prelude.{◌≡◌, ◌+◌, ◌*◌, ◌<◌, ◌≤◌, ◌^◌, ℕ, All, [], map, length, get_or, IsSome, IfOk, OnOk};
ghost use Rattle.theory_addresses.specs.Tables.{type_of};
ghost use Rattle.theory_substitution.specs.RuleParts.{edge_count};
ghost use Rattle.cyclo_points.specs.Order.{points_of};
ghost use Rattle.cyclo_points.specs.Point.{point_in, IsOf, IsWithin};
ghost use Rattle.rule_model.specs.Tiling.{tiling_of};
ghost use Rattle.rule_model.specs.Usable.{origin, IsSmall};
ghost use Rattle.rule_model.specs.Views.{rule_of};
ghost use Rattle.tile_place.specs.TurnedVertices.{turned_by, turned_table, widened, place_of, AreTurned};

use crate::small_point::SmallPoint;
use cyclo_points::order::Order;
use cyclo_points::point::Point;
use cyclo_points::rotation::turn;
use edge_tables::tables::Tables;
use rule_model::checked::Checked;
use std::alloc::Global;
use std::marker::Model;
use tile_shape::no_memory::NoMemory;

/// The vertices of all kinds, turned by each number of steps below the order.
#[derive(Drop)]
pub(crate) struct TurnedVertices {
    /// The number of places for vertices that each kind has.
    sides: u8,
    /// The number of turns: the order n.
    turns: u8,
    /// The points, by kind, then turn, then number of the vertex.
    points: Vec<SmallPoint>,
}

impl Model for TurnedVertices {
    ghost use Rattle.std.specs.Prelude.{map};
    ghost use Rattle.tile_place.specs.TurnedVertices.{TurnedTable, widened};

    ghost Value = { TurnedTable };

    ghost view = { λ x. record { sides = x.sides; turns = x.turns; points = map widened x.points.items } };
}

impl TurnedVertices {
    /// Makes the turned vertices of a rule's kinds.
    pub(crate) fn new(alloc: Global, checked: &Checked) -> Result<TurnedVertices, NoMemory>
        ensures { IfOk result (λ vertices. AreTurned (tiling_of checked.now) vertices) }
    {
        let order = checked.order();
        let sides = most_edges(checked.tables());
        let turns = order.n();
        let rows = usize::from(checked.uses().kinds()) * usize::from(turns);
        let mut points = Vec::with_capacity(alloc, rows * usize::from(sides))?;
        push_by_order(checked, order, sides, &mut points)?;
        Ok(TurnedVertices {
            sides,
            turns,
            points,
        })
    }

    /// Returns the number of places for vertices that each kind has.
    pub(crate) fn sides(&self) -> u8
        ensures { result ≡ self.now.sides }
    {
        self.sides
    }

    /// Returns vertex `number` of a kind, turned by ζ^steps.
    pub(crate) fn at(&self, kind: u8, steps: u8, number: usize) -> Point
        requires exists { place_of self.now kind steps number < length self.now.points }
        ensures { result ≡ get_or self.now.points (place_of self.now kind steps number) origin }
    {
        let row = usize::from(kind) * usize::from(self.turns) + usize::from(steps);
        self.points[row * usize::from(self.sides) + number].widened()
    }
}

/// Appends the vertices of all kinds, in every turn, to an empty list. Each order has compiled code of its
/// own.
fn push_by_order(
    checked: &Checked,
    order: Order,
    sides: u8,
    points: &mut Vec<SmallPoint>,
) -> Result<(), NoMemory>
    requires order { order ≡ checked.now.order }
    requires empty { points.old.items ≡ [] }
    requires hold { (k : ℕ) → edge_count (rule_of checked.now) k ≤ sides }
    ensures { OnOk result (AreTurned (tiling_of checked.now) (turned_table order sides points.new.items)) }
{
    match order {
        Order::Four => push_rows(checked, Order::Four, sides, points),
        Order::Six => push_rows(checked, Order::Six, sides, points),
        Order::Eight => push_rows(checked, Order::Eight, sides, points),
        Order::Ten => push_rows(checked, Order::Ten, sides, points),
    }
}

/// Like [`push_by_order`], within one order.
#[inline(always)]
fn push_rows(
    checked: &Checked,
    order: Order,
    sides: u8,
    points: &mut Vec<SmallPoint>,
) -> Result<(), NoMemory>
    requires order { order ≡ checked.now.order }
    requires empty { points.old.items ≡ [] }
    requires hold { (k : ℕ) → edge_count (rule_of checked.now) k ≤ sides }
    ensures { OnOk result (AreTurned (tiling_of checked.now) (turned_table order sides points.new.items)) }
{
    let turns = usize::from(order.n());
    for row in 0..usize::from(checked.uses().kinds()) * turns {
        let vertices = checked.vertices((row / turns) as u8);
        let steps = (row % turns) as u8;
        for number in 0..usize::from(sides) {
            points.push(SmallPoint::of(&turned_point(order, steps, vertices, number)))?;
        }
    }
    Ok(())
}

/// Returns point `number`, turned by ζ^steps, or 0 if there is no such point.
#[inline(always)]
fn turned_point(order: Order, steps: u8, points: &[Point], number: usize) -> Point
    requires turn_below { steps < (points_of order).order }
    requires small { All (IsSmall order) points.now }
    ensures turned { number < length points.now
        → point_in order result ≡ turned_by order steps (point_in order (get_or points.now number origin)) }
    ensures within { IsWithin (2 ^ 7) result }
    ensures in_order { number < length points.now → IsOf order result }
{
    if number < points.len() {
        turn(order, steps, &points[number])
    } else {
        Point::default()
    }
}

/// Returns a number of places that is enough for the edges of each kind.
fn most_edges(tables: &Tables) -> u8
    ensures { (k e : ℕ) → IsSome (type_of tables.now k e) → e < result }
{
    let mut most = 0;
    for kind in 0..tables.kinds() {
        most = larger(most, tables.edges(kind));
    }
    most
}

/// Returns the larger of two numbers.
fn larger(a: u8, b: u8) -> u8
    ensures first { a ≤ result }
    ensures second { b ≤ result }
{
    if a < b { b } else { a }
}
