//! Rings with a sign: the numbers in which all coordinates of the engine lie.
//!
//! A ring is a record of operations; its laws are a record of their own. A sign says whether a number is
//! below, equal to or above 0. The three rings are Z, Z[√2] and Z[φ], where φ is the golden ratio. Their
//! signs compare squares of integers, so nothing is ever rounded.
//!
//! The crate proves that the three are commutative rings, and that their signs meet the laws of an ordered
//! ring. Sums and products of positive numbers are positive, and the integer multiples of a positive number
//! exceed every number. It has definitions, proofs and laws, and no other code. Its proofs have a normaliser
//! of polynomials for every commutative ring.
#![tactic(auto)]

ghost use Rattle.std.specs.Prelude.{◌≡◌, pos};
ghost use Rattle.theory_ring.specs.Ring.{Laws, integers};
ghost use Rattle.theory_ring.specs.Squares.{NoRoot};
ghost use Rattle.theory_ring.specs.Sign.{OrderLaws, signed_integers, signed_root_two, signed_golden};
ghost use Rattle.theory_ring.specs.Divisor.{DividesWhole};

use std::cmp::Ordering;

/// States that Z is an ordered ring.
pub fn integers_law()
    ensures ring { Laws integers }
    ensures order { OrderLaws signed_integers }
{}

/// States that Z[√2] is an ordered ring. In it √2, the pair (0, 1), is positive and a root of 2, and no
/// rational number is a root of 2.
pub fn root_two_law()
    ensures ring { Laws signed_root_two.ops }
    ensures order { OrderLaws signed_root_two }
    ensures irrational { NoRoot (pos 2) }
    ensures root_squared { signed_root_two.ops.mul (record { a = pos 0; b = pos 1 })
        (record { a = pos 0; b = pos 1 })
        ≡ signed_root_two.ops.int (pos 2) }
    ensures root_positive { signed_root_two.sign (record { a = pos 0; b = pos 1 }) ≡ Ordering.Greater }
{}

/// States that Z[φ] is an ordered ring. In it φ, the pair (0, 1), is positive and has the square φ + 1, and
/// no rational number is a root of 5.
pub fn golden_law()
    ensures ring { Laws signed_golden.ops }
    ensures order { OrderLaws signed_golden }
    ensures irrational { NoRoot (pos 5) }
    ensures ratio_squared { signed_golden.ops.mul (record { a = pos 0; b = pos 1 })
        (record { a = pos 0; b = pos 1 })
        ≡ signed_golden.ops.add (record { a = pos 0; b = pos 1 }) (signed_golden.ops.int (pos 1)) }
    ensures ratio_positive { signed_golden.sign (record { a = pos 0; b = pos 1 }) ≡ Ordering.Greater }
{}

/// States that in each of the three rings a positive number divides an integer of at least 1. So every
/// fraction can be written with an integer below the line.
pub fn divisors_law()
    ensures integers { DividesWhole signed_integers }
    ensures root_two { DividesWhole signed_root_two }
    ensures golden { DividesWhole signed_golden }
{}
