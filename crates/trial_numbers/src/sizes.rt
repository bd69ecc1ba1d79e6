//! Whether the numbers of a row are within the bounds of the call that is tried on them.
ghost use Rattle.std.specs.Prelude.{◌≡◌, ◌^◌, All, IsTrue};
ghost use Rattle.std.specs.List.{list_all};
ghost use Rattle.cyclo_points.specs.Point.{IsWithin, Within};
ghost use Rattle.cyclo_points.specs.Real.{IsRealWithin};
ghost use Rattle.trial_numbers.specs.Sizes.{is_at_most, is_within};

use cyclo_points::point::Point;
use cyclo_points::real::Real;

/// Returns true if a coefficient is at most so much in absolute value.
fn is_small(most: u64, x: i64) -> bool
    ensures { result ≡ is_at_most most x }
{
    x.unsigned_abs() <= most
}

/// Returns true if each coefficient is at most so much in absolute value.
fn passes(most: u64, p: &Point) -> bool
    ensures { result ≡ is_within most p.now }
{
    is_small(most, p.c[0])
        && is_small(most, p.c[1])
        && is_small(most, p.c[2])
        && is_small(most, p.c[3])
}

/// Returns true if a point is within a bound.
pub(crate) fn within(most: u64, p: &Point) -> bool
    ensures { IsTrue result → IsWithin most p.now }
{
    passes(most, p)
}

/// Returns true if each point passes at 2^25.
fn all_pass(points: &[Point]) -> bool
    ensures { result ≡ list_all (is_within (2 ^ 25)) points.now }
{
    points.iter().all(|p| passes(1 << 25, p))
}

/// Returns true if each point's coefficients are at most 2^25 in absolute value.
pub(crate) fn all_within(points: &[Point]) -> bool
    ensures { IsTrue result → All (IsWithin (2 ^ 25)) points.now }
{
    all_pass(points)
}

/// Returns true if a number is at most so much in absolute value.
fn is_at_most(most: u128, x: &i128) -> bool
    ensures { result ≡ is_at_most most x.now }
{
    x.unsigned_abs() <= most
}

/// Returns true if a number is within a bound.
fn is_bounded(most: u128, x: &i128) -> bool
    ensures { IsTrue result → Within most x.now }
{
    is_at_most(most, x)
}

/// Returns true if both parts are at most so much in absolute value.
pub(crate) fn real_within(most: u128, r: &Real) -> bool
    ensures { IsTrue result → IsRealWithin most r.now }
{
    is_bounded(most, &r.a) && is_bounded(most, &r.b)
}
