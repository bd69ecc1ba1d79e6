//! Points whose coefficients are small enough for a call.
ghost use Rattle.std.specs.Prelude.{◌^◌, IsTrue};
ghost use Rattle.cyclo_points.specs.Point.{Within, IsWithin};

use cyclo_points::arithmetic::refused;
use cyclo_points::point::Point;

/// Returns true if a point is not refused.
pub fn near(p: &Point) -> bool
    ensures limit { IsTrue result → IsWithin (2 ^ 24) p.now }
    ensures crossed { IsTrue result → IsWithin (2 ^ 25) p.now }
    ensures moved { IsTrue result → IsWithin (2 ^ 38) p.now }
    ensures turned { IsTrue result → IsWithin (2 ^ 40) p.now }
{
    !refused(p)
}

/// Returns true if all coefficients are at most 2^22 in absolute value.
pub fn close(p: &Point) -> bool
    ensures { IsTrue result → IsWithin (2 ^ 22) p.now }
{
    is_close(p.c[0]) && is_close(p.c[1]) && is_close(p.c[2]) && is_close(p.c[3])
}

/// Returns true if a coefficient is at most 2^22 in absolute value.
fn is_close(a: i64) -> bool
    ensures { IsTrue result → Within (2 ^ 22) a }
{
    -4_194_304 <= a && a <= 4_194_304
}
