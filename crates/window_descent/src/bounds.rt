//! Bounds of points in X and Y, by witnesses.
//!
//! X and Y of a shifted point are sums, and the witness of a sum of short numbers is the sum of their
//! witnesses. So the bounds of a part that is not shifted serve each part that differs from it by a shift.
ghost use Rattle.std.specs.Prelude.{◌≡◌, ◌^◌, ◌<◌, ◌<ℤ◌, pos, All, IfSome, IsTrue};
ghost use Rattle.std.specs.List.{AllByRecursion};
ghost use Rattle.cyclo_points.specs.Point.{IsWithin, Within};
ghost use Rattle.cyclo_points.specs.Real.{real_in, IsRealWithin};
ghost use Rattle.cyclo_points.specs.Witness.{witness_in};
ghost use Rattle.plane_geom.specs.Spots.{PlanePointOf, spot_of};
ghost use Rattle.window_descent.specs.Bounds.{witness_of, IsShortNumber, IsEnclosed, AreLimits, AreWithin, LiesBetween};
ghost use Rattle.window_descent.specs.declared.standing.Standing.TheVariants as Standing;
ghost use Rattle.window_descent.specs.Reach.{IsInReach};

use crate::sides::{high_of, wide_of};
use crate::standing::Standing;
use cyclo_points::coordinates::{x, y};
use cyclo_points::order::Order;
use cyclo_points::point::Point;
use cyclo_points::real::Real;
use cyclo_points::sign::witness;
use plane_geom::window::Window;

/// The greatest size of the parts of a number that is short. The sum of two short numbers has a witness.
const GREATEST_PART: i64 = 1 << 23;

/// Bounds in X and Y, as witnesses.
#[derive(Clone, Copy)]
pub(crate) struct Bounds {
    pub(crate) right: i64,
    pub(crate) left: i64,
    pub(crate) upper: i64,
    pub(crate) lower: i64,
}

impl Bounds {
    /// Returns bounds of all points, or None if X or Y of one of them is long.
    pub(crate) fn of(order: Order, points: &[Point]) -> Option<Bounds>
        requires within { All (IsWithin (2 ^ 25)) points.now }
        ensures { IfSome result
            (λ bounds. AllByRecursion (λ p. IsEnclosed order bounds (spot_of order p)) points.now) }
    {
        let mut bounds = Bounds {
            right: i64::MIN,
            left: i64::MAX,
            upper: i64::MIN,
            lower: i64::MAX,
        };
        for point in points {
            bounds = bounds.with(&Bounds::at(order, point)?);
        }
        Some(bounds)
    }

    /// Returns the bounds of one point, or None if X or Y of it is long.
    fn at(order: Order, point: &Point) -> Option<Bounds>
        requires within { IsWithin (2 ^ 25) point.now }
        ensures { IfSome result (λ bounds. IsEnclosed order bounds (spot_of order point.now)) }
    {
        let across = short_witness(order, &x(order, point))?;
        let along = short_witness(order, &y(order, point))?;
        Some(Bounds {
            right: across,
            left: across,
            upper: along,
            lower: along,
        })
    }

    /// Returns bounds of what these bounds enclose and of what others do.
    fn with(&self, other: &Bounds) -> Bounds
        ensures own { (o : Order) (v : PlanePointOf o) → IsEnclosed o self.now v → IsEnclosed o result v }
        ensures other { (o : Order) (v : PlanePointOf o) → IsEnclosed o other.now v → IsEnclosed o result v }
    {
        Bounds {
            right: self.right.max(other.right),
            left: self.left.min(other.left),
            upper: self.upper.max(other.upper),
            lower: self.lower.min(other.lower),
        }
    }

    /// Returns the sides of a window as limits for the bounds of a part with this shift. Returns None if the
    /// shift is far from the window.
    pub(crate) fn limits(order: Order, window: &Window, shift: &Point) -> Option<Bounds>
        requires shift_within { IsWithin (2 ^ 25) shift.now }
        requires centre_within { IsInReach window.now }
        ensures { IfSome result (AreLimits order window.now shift.now) }
    {
        let across = short_witness(order, &wide_of(order, window, shift))?;
        let along = short_witness(order, &high_of(order, window, shift))?;
        let wide = extent_witness(order, window.w);
        let high = extent_witness(order, window.h);
        Some(Bounds {
            right: wide - across,
            left: -wide - across,
            upper: high - along,
            lower: -high - along,
        })
    }

    /// Finds how a polygon with these bounds lies relative to a window with these limits.
    pub(crate) fn beside(&self, limits: &Bounds) -> Standing
        ensures { LiesBetween self.now limits.now result }
    {
        if self.is_beyond(limits) {
            return Standing::Beyond;
        }
        if self.is_within(limits) {
            return Standing::Within;
        }
        Standing::Across
    }

    /// Returns true if the bounds are beyond one of the limits.
    fn is_beyond(&self, limits: &Bounds) -> bool
        ensures { IsTrue result → LiesBetween self.now limits.now Standing.Beyond }
    {
        limits.right <= self.left
            || self.right <= limits.left
            || limits.upper <= self.lower
            || self.upper <= limits.lower
    }

    /// Returns true if the bounds are within all limits.
    fn is_within(&self, limits: &Bounds) -> bool
        ensures { IsTrue result → AreWithin self.now limits.now }
    {
        is_between(limits.left, self.left, self.right, limits.right)
            && is_between(limits.lower, self.lower, self.upper, limits.upper)
    }
}

/// Returns true if a range, from `least` to `greatest`, is between two limits.
fn is_between(low: i64, least: i64, greatest: i64, high: i64) -> bool
    ensures above { IsTrue result → low <ℤ least }
    ensures below { IsTrue result → greatest <ℤ high }
{
    low < least && greatest < high
}

/// Returns the witness of the extent of a window.
fn extent_witness(order: Order, extent: u16) -> i64
    ensures fits { extent < 2 ^ 16 }
    ensures value { result ≡ witness_in order (pos extent) (pos 0) }
    ensures small { Within (2 ^ 60) result }
{
    witness(order, i64::from(extent), 0)
}

/// Returns the witness of a number, or None if the number is long.
fn short_witness(order: Order, r: &Real) -> Option<i64>
    requires within { IsRealWithin (2 ^ 28) r.now }
    ensures short { IfSome result (λ n. IsShortNumber order (2 ^ 23) (real_in order r.now)) }
    ensures value { IfSome result (λ n. n ≡ witness_of order (real_in order r.now)) }
    ensures small { IfSome result (Within (2 ^ 52)) }
{
    let a = r.a as i64;
    let b = r.b as i64;
    if a > GREATEST_PART || a < -GREATEST_PART || b > GREATEST_PART || b < -GREATEST_PART {
        return None;
    }
    Some(witness(order, a, b))
}
