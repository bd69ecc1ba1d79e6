//! The laws of the plane, for the points of each order.

ghost use Rattle.plane_geom.specs.Laws.{AntisymmetryLaw, AdditivityLaw, FanLaw, TriangleLaw};
ghost use Rattle.plane_geom.specs.Laws.{SeparationLaw, SegmentLaw};
ghost use Rattle.plane_geom.specs.Products.{MotionLaw, IsometryLaw, OrientationLaw, LengthLaw};
ghost use Rattle.plane_geom.specs.Products.{ProductLaw, FactorLaw, FactorPowersLaw, RealFactorLaw};

use cyclo_points::order::Order;
use cyclo_points::points_law;

/// States that the crossing of a reversed edge is the negative. If a point cuts an edge, the edge's crossing
/// is the sum over both parts.
pub fn crossing_law(order: Order)
    ensures antisymmetric { AntisymmetryLaw order }
    ensures additive { AdditivityLaw order }
{
    points_law(order);
}

/// States that a polygon's count is the sum over its fan.
pub fn fan_law(order: Order)
    ensures { FanLaw order }
{
    points_law(order);
}

/// States that each triangle that turns left counts 0 or 1 at every test point, and that no test point
/// belongs to both of two separated ones.
pub fn triangle_law(order: Order)
    ensures zero_or_one { TriangleLaw order }
    ensures nothing_shared { SeparationLaw order }
{
    points_law(order);
}

/// States that a point is on a closed segment if and only if it is a mean of the ends with non-negative
/// weights.
pub fn segment_law(order: Order)
    ensures { SegmentLaw order }
{
    points_law(order);
}

/// States that motions keep left turns, segments and lengths.
pub fn motion_law(order: Order)
    ensures keeps { MotionLaw order }
    ensures isometry { IsometryLaw order }
{
    points_law(order);
}

/// States that a product by any number multiplies orientations and squared lengths by the squared length of
/// the number. If that is positive, it keeps left turns, segments and equal lengths.
pub fn product_law(order: Order)
    ensures orientations { OrientationLaw order }
    ensures lengths { LengthLaw order }
    ensures keeps { ProductLaw order }
{
    points_law(order);
}

/// States that a factor of squared length above 1, and each power of it, keeps left turns, segments and equal
/// lengths. The factor may turn the plane; a real one above 1 is such a factor.
pub fn factor_law(order: Order)
    ensures keeps { FactorLaw order }
    ensures powers_keep { FactorPowersLaw order }
    ensures real_factors { RealFactorLaw order }
{
    points_law(order);
}
