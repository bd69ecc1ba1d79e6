//! Tests if a prototile that is scaled and moved holds a point, one vertex after another.
ghost use Rattle.std.specs.Prelude.{◌≡◌, ◌^◌, ◌&&◌, pos, true, false, IfOk, IfErr, MatchResult};
ghost use Rattle.std.specs.Ordering.{int_eq};
ghost use Rattle.cyclo_points.specs.Order.{points_of, is_refused};
ghost use Rattle.cyclo_points.specs.Point.{point_in, IsOf, IsWithin};
ghost use Rattle.tile_place.specs.Inflated.{IsInflatedTile, outline_in, do_hold};
ghost use Rattle.tile_place.specs.Motions.{IsMotionOf};
ghost use Rattle.tile_place.specs.Refused.{Visits};

use crate::coord_limit::CoordLimit;
use crate::inflated_tile::InflatedTile;
use crate::machine::Machine;
use cyclo_points::arithmetic::{add, refused};
use cyclo_points::motion::Motion;
use cyclo_points::order::Order;
use cyclo_points::point::Point;
use cyclo_points::points_law;
use cyclo_points::product::mul;
use cyclo_points::rotation::turn;
use plane_geom::sides::{crossing_between, is_above};

impl Machine {
    /// Visits the vertices of a prototile that is scaled and moved, in order. Returns true if `sought` is set
    /// and the polygon holds the point. Err has the first vertex that is refused.
    pub(crate) fn holds_where(
        &self,
        tile: &InflatedTile<'_>,
        point: &Point,
        sought: bool,
    ) -> Result<bool, CoordLimit>
        requires tile { IsInflatedTile self.now tile.now }
        requires point_within { IsWithin (2 ^ 24) point.now }
        ensures holds { IfOk result (λ holds. holds
            ≡ (sought && do_hold self.now (outline_in self.now tile.now) point.now)) }
        ensures visits { Visits self.now.order (outline_in self.now tile.now) result }
    {
        let order = self.checked().order();
        match order {
            Order::Four => self.holds_in(Order::Four, tile, point, sought),
            Order::Six => self.holds_in(Order::Six, tile, point, sought),
            Order::Eight => self.holds_in(Order::Eight, tile, point, sought),
            Order::Ten => self.holds_in(Order::Ten, tile, point, sought),
        }
    }

    /// Like [`holds_where`](Self::holds_where), within one order. The compiler makes a body of its own for
    /// each order.
    #[inline(always)]
    fn holds_in(
        &self,
        order: Order,
        tile: &InflatedTile<'_>,
        point: &Point,
        sought: bool,
    ) -> Result<bool, CoordLimit>
        requires its_order { order ≡ self.now.order }
        requires tile { IsInflatedTile self.now tile.now }
        requires point_within { IsWithin (2 ^ 24) point.now }
        ensures holds { IfOk result (λ holds. holds
            ≡ (sought && do_hold self.now (outline_in self.now tile.now) point.now)) }
        ensures visits { Visits self.now.order (outline_in self.now tile.now) result }
    {
        if sought {
            self.holds(order, tile, point)
        } else {
            self.look_round(order, tile)
        }
    }

    /// Returns true if a prototile that is scaled and moved holds a point. Err has its first vertex that is
    /// refused.
    #[inline(always)]
    fn holds(
        &self,
        order: Order,
        tile: &InflatedTile<'_>,
        point: &Point,
    ) -> Result<bool, CoordLimit>
        requires its_order { order ≡ self.now.order }
        requires tile { IsInflatedTile self.now tile.now }
        requires point_within { IsWithin (2 ^ 24) point.now }
        ensures holds { IfOk result (λ holds. holds
            ≡ do_hold self.now (outline_in self.now tile.now) point.now) }
        ensures visits { Visits self.now.order (outline_in self.now tile.now) result }
    {
        let checked = self.checked();
        points_law(order);
        let turned = turn(order, tile.at.turn, tile.scale);
        let vertices = checked.vertices(tile.kind);
        let first = corner(order, &turned, &vertices[0], tile.at)?;
        let begins_above = is_above(order, &first, point);
        let mut from = first;
        let mut above = begins_above;
        let mut total = 0;
        for i in 1..vertices.len() {
            let to = corner(order, &turned, &vertices[i], tile.at)?;
            let ends_above = is_above(order, &to, point);
            let crossed = crossing_between(order, &from, &to, point, above, ends_above);
            total += crossed as i32;
            from = to;
            above = ends_above;
        }
        let crossed = crossing_between(order, &from, &first, point, above, begins_above);
        Ok(is_once(total + crossed as i32))
    }

    /// Visits the vertices of a prototile that is scaled and moved, and returns false. Err has the first
    /// vertex that is refused.
    #[inline(always)]
    fn look_round(&self, order: Order, tile: &InflatedTile<'_>) -> Result<bool, CoordLimit>
        requires its_order { order ≡ self.now.order }
        requires tile { IsInflatedTile self.now tile.now }
        ensures is_false { IfOk result (λ holds. holds ≡ false) }
        ensures visits { Visits self.now.order (outline_in self.now tile.now) result }
    {
        let checked = self.checked();
        points_law(order);
        let turned = turn(order, tile.at.turn, tile.scale);
        let vertices = checked.vertices(tile.kind);
        for i in 0..vertices.len() {
            let _ = corner(order, &turned, &vertices[i], tile.at)?;
        }
        Ok(false)
    }
}

/// Returns true if a polygon with this winding number about a point holds it: the number is 1.
fn is_once(count: i32) -> bool
    ensures { result ≡ int_eq count (pos 1) }
{
    count == 1
}

/// Returns a vertex times `scale`, plus the shift, unless this is refused.
#[inline(always)]
fn corner(order: Order, scale: &Point, vertex: &Point, at: &Motion) -> Result<Point, CoordLimit>
    requires scale_within { IsWithin (2 ^ 25) scale.now }
    requires vertex_within { IsWithin 64 vertex.now }
    requires moves { IsMotionOf order (2 ^ 24) at.now }
    ensures place { let place = (points_of order).ring.add
        ((points_of order).ring.mul (point_in order scale.now) (point_in order vertex.now))
        (point_in order at.now.shift) in MatchResult result (λ corner. point_in order corner ≡ place)
        (λ limit. point_in order limit.value ≡ place) }
    ensures refused { MatchResult result (λ corner. is_refused order (point_in order corner) ≡ false)
        (λ limit. is_refused order (point_in order limit.value) ≡ true) }
    ensures within { IfOk result (λ corner. IsWithin (2 ^ 24) corner) }
    ensures limit_in_order { IfErr result (λ limit. IsOf order limit.value) }
{
    let corner = add(&mul(order, scale, vertex), &at.shift);
    if refused(&corner) {
        return Err(CoordLimit { value: corner });
    }
    Ok(corner)
}
