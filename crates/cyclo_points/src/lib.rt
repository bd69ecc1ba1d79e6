//! Points of the plane as cyclotomic integers: integer combinations of the powers of ζ = e^(2πi/n), for the
//! orders n = 4, 6, 8 and 10.
//!
//! De Bruijn put the vertices of Penrose's tilings into such a ring Z[ζ], and Beenker those of the tilings of
//! order 8. In it a turn is a product by a power of ζ, and nothing is ever rounded. Order 4 has the square
//! lattice, and order 6 the triangular one.
//!
//! Sums, turns and products are exact in the ring of each order. Each call states how large coefficients may
//! be, and how large those of its result are, so nothing overflows. The four rings, with their coordinates X
//! and Y, meet the laws of points on which the theory of substitutions rests.
#![tactic(auto)]

ghost use Rattle.std.specs.Prelude.{◌≡◌};
ghost use Rattle.theory_ring.specs.Divisor.{DividesWhole};
ghost use Rattle.cyclo_points.specs.Motion.{motion_cmp};
ghost use Rattle.cyclo_points.specs.Order.{PointsLaw, points_of};
ghost use Rattle.cyclo_points.specs.Placement.{PlacementLaw};
ghost use Rattle.cyclo_points.specs.Real.{RealOf};
ghost use Rattle.cyclo_points.specs.Thousandths.{IsFloorThousandths, thousandths};

pub mod arithmetic;
pub mod coordinates;
pub mod motion;
pub mod movement;
pub mod order;
pub mod point;
pub mod product;
pub mod real;
pub mod real_product;
pub mod real_sum;
pub mod rotation;
mod short;
pub mod sign;
pub mod thousandths;

use motion::Motion;
use order::Order;
use std::cmp::Ordering;

/// States that the points of the order meet the laws of points.
pub fn points_law(order: Order)
    ensures { PointsLaw order }
{}

/// States that the motion of an address, in the list of its supertile's tiles, is the one that Horner's
/// scheme computes from its digits. It holds for the points of each order and for every rule.
pub fn placement_law(order: Order)
    ensures { PlacementLaw order }
{}

/// States that a positive number of the order's ring of coordinates divides an integer of at least 1. So each
/// point of the plane with rational coordinates X and Y is a test point.
pub fn divisors_law(order: Order)
    ensures { DividesWhole (points_of order).real }
{}

/// States that a number of coordinates in thousandths, rounded down, is the greatest integer not above a
/// thousand times the number.
pub fn thousandths_law(order: Order)
    ensures { (r : RealOf order) → IsFloorThousandths order r (thousandths order r) }
{}

/// Compares two motions, and states the law of their order: by turn, then by shift.
pub fn motion_order_law(motion: &Motion, other: &Motion) -> Ordering
    ensures { result ≡ motion_cmp motion.now other.now }
{
    motion.cmp(other)
}
