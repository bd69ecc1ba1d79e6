//! Points as plain numbers.
ghost use Rattle.std.specs.Prelude.{◌≡◌, ◌↔◌, ◌^◌, IsSome, IfSome};
ghost use Rattle.cyclo_points.specs.Point.{IsWithin, IsOf};
ghost use Rattle.c_values.specs.Windows.{point_given, IsNearby};

use crate::plain_window::are_near;
use cyclo_points::coordinates::reduce;
use cyclo_points::order::Order;
use cyclo_points::point::Point;

/// The point a0 + a1 ζ + a2 ζ² + a3 ζ³, as its coefficients, a0 first.
#[repr(C)]
#[derive(Clone, Copy)]
pub struct PlainPoint {
    pub c: [i64; 4],
}

impl PlainPoint {
    /// Returns the point of these numbers in an order, or None exactly if a coefficient is above 2^20 in
    /// absolute value.
    pub fn point(&self, order: Order) -> Option<Point>
        ensures point { IfSome result (λ p. p ≡ point_given order self.now.c) }
        ensures within { IfSome result (IsWithin (2 ^ 22)) }
        ensures in_order { IfSome result (IsOf order) }
        ensures near { IsSome result ↔ IsNearby self.now.c }
    {
        let point = Point { c: self.c };
        if !are_near(&point) {
            return None;
        }
        Some(reduce(order, &point))
    }
}
