//! The laws of frames, for the points of each order.
ghost use Rattle.cyclo_points.specs.Order.{points_of};
ghost use Rattle.theory_frames.specs.Laws.{CoarseEndLaw, AncestorLaw, FoundTileLaw, GrowthLaw};

use cyclo_points::order::Order;

/// States that a longer coarse end moves no tile. The motion of a tile in the frame of its own depth is also
/// the motion of the lifted tile in the whole frame.
pub fn coarse_end_law(order: Order)
    ensures { CoarseEndLaw (points_of order) }
{}

/// States that the motion of the base's ancestor, found level by level, is the motion back of the base in
/// that ancestor.
pub fn ancestor_law(order: Order)
    ensures { AncestorLaw (points_of order) }
{}

/// States that the tile found to hold a point, in an ancestor of the base, is in that ancestor's frame.
/// Lifted, it is in the whole frame, with the motion that the search gives it.
pub fn found_tile_law(order: Order)
    ensures { FoundTileLaw (points_of order) }
{}

/// States that the digits at the coarse end are the same however growth is divided into steps.
pub fn growth_law()
    ensures { GrowthLaw }
{}
