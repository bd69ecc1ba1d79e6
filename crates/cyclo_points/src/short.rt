//! Which numbers are short: most numbers of the engine are small, and those with parts below 2^25
//! need no more than 64 bits for their signs and products.

ghost use Rattle.std.specs.Prelude.{◌-◌, ◌^◌, ◌<◌, IsTrue};
ghost use Rattle.cyclo_points.specs.Point.{Within};
ghost use Rattle.cyclo_points.specs.Real.{IsRealWithin};

use crate::real::Real;

/// The least short part is -2^25.
const BELOW_ZERO: i64 = 1 << 25;

/// There are 2^26 short parts, of which 2^25 - 1 is the greatest.
const SHORT_PARTS: u64 = 1 << 26;

/// Returns true if both parts of a number are short.
pub(crate) fn is_short(r: &Real) -> bool
    requires r_within { IsRealWithin (2 ^ 61) r.now }
    ensures only_short { IsTrue result → IsRealWithin (2 ^ 25) r.now }
    ensures all_short { IsRealWithin (2 ^ 25 - 1) r.now → IsTrue result }
{
    offsets(r) < SHORT_PARTS
}

/// Returns true if all parts of two numbers are short, by one comparison.
pub(crate) fn are_short(r: &Real, s: &Real) -> bool
    requires r_within { IsRealWithin (2 ^ 61) r.now }
    requires s_within { IsRealWithin (2 ^ 61) s.now }
    ensures first_short { IsTrue result → IsRealWithin (2 ^ 25) r.now }
    ensures second_short { IsTrue result → IsRealWithin (2 ^ 25) s.now }
    ensures all_short { IsRealWithin (2 ^ 25 - 1) r.now → IsRealWithin (2 ^ 25 - 1) s.now
        → IsTrue result }
{
    (offsets(r) | offsets(s)) < SHORT_PARTS
}

/// Returns the bits that are set in the offset of either part: below 2^26 for short parts only.
fn offsets(r: &Real) -> u64
    requires r_within { IsRealWithin (2 ^ 61) r.now }
    ensures only_short { result < 2 ^ 26 → IsRealWithin (2 ^ 25) r.now }
    ensures all_short { IsRealWithin (2 ^ 25 - 1) r.now → result < 2 ^ 26 }
{
    offset(r.a) | offset(r.b)
}

/// How far a part lies above the least short one, modulo 2^64: so it is large for a part below that.
fn offset(x: i128) -> u64
    requires x_within { Within (2 ^ 61) x }
    ensures only_short { result < 2 ^ 26 → Within (2 ^ 25) x }
    ensures all_short { Within (2 ^ 25 - 1) x → result < 2 ^ 26 }
{
    (x as i64 + BELOW_ZERO).cast_unsigned()
}
