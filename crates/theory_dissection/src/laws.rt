//! The laws of every accepted rule, for the points of each order.
ghost use Rattle.cyclo_points.specs.Order.{points_of};
ghost use Rattle.theory_dissection.specs.Laws.{DissectionLaw, TouchLaw, AcrossLaw, BoundaryLaw, CrossingLaw, GlueLaw, NoReturnLaw, MultiplesLaw};

use cyclo_points::order::Order;

/// States that each test point of a supertile belongs to exactly one of its tiles. The counts of the tiles
/// add up to the supertile's, and each is 0 or 1. The supertile may be moved by any map that keeps left
/// turns, segments and equal lengths.
pub fn dissection_law(order: Order)
    ensures { DissectionLaw (points_of order) }
{}

/// States that edges touch by the contact tables if and only if one tile is across the edge of the other,
/// with both placed in their common supertile.
pub fn touch_law(order: Order)
    ensures { TouchLaw (points_of order) }
{}

/// States that the only pair that an edge touches is the only tile across it in the plane, and conversely.
pub fn across_law(order: Order)
    ensures { AcrossLaw (points_of order) }
{}

/// States that an edge has a trace if and only if it lies along an edge of its supertile's polygon: that
/// edge, and that part of it.
pub fn boundary_law(order: Order)
    ensures { BoundaryLaw (points_of order) }
{}

/// States that exactly one of two things holds of an edge. It has exactly one tile across it, from which the
/// return edge leads back; or it is on the boundary, with no tile across it.
pub fn crossing_law(order: Order)
    ensures { CrossingLaw (points_of order) }
{}

/// States that the motion of the tile across an edge is the motion that glues the two edges, followed by that
/// of the edge's own tile.
pub fn glue_law(order: Order)
    ensures { GlueLaw (points_of order) }
{}

/// States that no edge of a prototile, moved, runs back along another edge of it. Only where the fan closes
/// at vertex 0 could that happen, and there the edges leave in two directions.
pub fn no_return_law(order: Order)
    ensures { NoReturnLaw (points_of order) }
{}

/// States that integer multiples of a positive coordinate exceed any bound. So two edges along one line have
/// a test point in common that is close to its middle.
pub fn multiples_law(order: Order)
    ensures { MultiplesLaw (points_of order) }
{}
