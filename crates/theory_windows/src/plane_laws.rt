//! The laws of the plane on which windows rest, for the points of each order.
ghost use Rattle.cyclo_points.specs.Order.{points_of};
ghost use Rattle.theory_windows.specs.Laws.{ClosedChainLaw, ClosedChainsLaw, TriangleMeetsLaw, PolygonMeetsLaw};
ghost use Rattle.theory_windows.specs.Laws.{CutLaw, CutsLaw};

use cyclo_points::order::Order;

/// States the law of closed chains. The count of a polygon is constant on an open box that its edges avoid.
/// So is a sum over polygons, if those of their edges that meet the box cancel in pairs.
pub fn closed_chain_law(order: Order)
    ensures one { ClosedChainLaw (points_of order) }
    ensures together { ClosedChainsLaw (points_of order) }
{}

/// States that a triangle that turns left meets an open box if one of its edges does. The same holds for a
/// polygon whose fan turns left.
pub fn edge_meets_law(order: Order)
    ensures triangle { TriangleMeetsLaw (points_of order) }
    ensures polygon { PolygonMeetsLaw (points_of order) }
{}

/// States that an edge that is cut at points of it, in order, meets an open box if and only if one of its
/// parts does.
pub fn cut_law(order: Order)
    ensures one { CutLaw (points_of order) }
    ensures many { CutsLaw (points_of order) }
{}
