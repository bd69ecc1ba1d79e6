//! Lists of the tiles of a window from other programs, and when they are right.
//!
//! A line of a list is an address and a motion. The list is right if its lines are exactly the tiles that
//! meet the window, each exactly once and with its motion. A walk through the lines decides. It goes from the
//! tile at the centre across edges that meet the window, and looks for each tile that it reaches among the
//! lines. If the walk ends, the tiles found are all that meet the window. So the list is right if and only if
//! each line's tile is found. The crate has definitions, proofs and laws, and no other code.
#![tactic(auto)]

ghost use Rattle.cyclo_points.specs.Order.{points_of};
ghost use Rattle.theory_listings.specs.Laws.{WalkLaw};
ghost use Rattle.theory_listings.specs.FrameWalk.{FrameWalkStartLaw, FrameWalkStepLaw, FrameWalkRoomLaw, FrameWalkEndLaw};
ghost use Rattle.theory_listings.specs.FrameWalk.{FrameBeyondLaw, FrameWalkStopLaw, FrameNoFaultLaw};
ghost use Rattle.theory_listings.specs.FrameWalk.{FrameRightLaw, FrameNoListFaultLaw};
ghost use Rattle.theory_listings.specs.FrameLifted.{LiftedListingLaw};

use cyclo_points::order::Order;

/// States the theorem of the walk through a list, in any dissected patch that grows. Each tile that it comes
/// to meets the window, and each new one is one line more. If it stops, it has a cause. If it comes to its
/// end, all tiles that meet the window are found, and the list is right if and only if each line's tile is.
pub fn walk_law(order: Order)
    ensures { WalkLaw (points_of order) }
{}

/// States how the walk goes in a frame of an accepted rule, if the lines are addresses and motions. It states
/// the start, a step, that each step finds one line more, and the end.
pub fn frame_walk_law(order: Order)
    ensures start { FrameWalkStartLaw (points_of order) }
    ensures step { FrameWalkStepLaw (points_of order) }
    ensures room { FrameWalkRoomLaw (points_of order) }
    ensures end { FrameWalkEndLaw (points_of order) }
{}

/// States what its faults mean. A tile beyond the depth to which the lines grow the frame has no line. If no
/// tile is across an edge that meets the window, no depth is enough. If each tile that meets the window is
/// listed, no fault has a cause.
pub fn walk_fault_law(order: Order)
    ensures beyond { FrameBeyondLaw (points_of order) }
    ensures stop { FrameWalkStopLaw (points_of order) }
    ensures none { FrameNoFaultLaw (points_of order) }
{}

/// States what a right list is. Its depth is that to which its lines grow the frame, each tile that meets the
/// window is listed, and it has none of the faults. A list means the same with its addresses lifted to that
/// depth.
pub fn right_listing_law(order: Order)
    ensures right { FrameRightLaw (points_of order) }
    ensures no_fault { FrameNoListFaultLaw (points_of order) }
    ensures lifted { LiftedListingLaw (points_of order) }
{}
