//! The laws of the search for the tiles of a window on a frame of an accepted rule, for the points of each
//! order.
ghost use Rattle.cyclo_points.specs.Order.{points_of};
ghost use Rattle.theory_windows.specs.FrameCover.{FrameStartLaw, FrameStepLaw, FrameFinishLaw};
ghost use Rattle.theory_windows.specs.FrameCover.{FrameStopLaw, FrameGoesOnLaw, FrameEndsLaw};

use cyclo_points::order::Order;

/// States that the search on a frame is right. It starts with the tile that holds the centre, at the least
/// depth at which the frame holds the centre, and goes on by crossings that grow the frame. If no edge is
/// open, the tiles found are all that meet the window, they cover it, and the depth is the least.
pub fn frame_search_law(order: Order)
    ensures start { FrameStartLaw (points_of order) }
    ensures step { FrameStepLaw (points_of order) }
    ensures finish { FrameFinishLaw (points_of order) }
{}

/// States the limits of a frame. An open edge on the boundary at the frame's own depth is beyond them. Within
/// them no tile across an open edge is refused, or one too many. If the search comes to its end, the window
/// is within them.
pub fn frame_limits_law(order: Order)
    ensures stop { FrameStopLaw (points_of order) }
    ensures onward { FrameGoesOnLaw (points_of order) }
    ensures end { FrameEndsLaw (points_of order) }
{}
