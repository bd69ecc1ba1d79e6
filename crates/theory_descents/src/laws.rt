//! The laws of the descent to the tiles of a window, for the points of each order.
ghost use Rattle.cyclo_points.specs.Order.{points_of};
ghost use Rattle.theory_descents.specs.Laws.{BeyondLaw, InsideLaw, TestLaw, PointLaw};
ghost use Rattle.theory_descents.specs.Laws.{PrunedLaw, TakenLaw, PartsLaw, DescentLaw};
ghost use Rattle.theory_descents.specs.Laws.{FrameBelowLaw, FrameDescentLaw, HoldsLaw, ClimbLaw, FrameCoversLaw};

use cyclo_points::order::Order;

/// States how the vertices of a polygon decide. One beyond a side of the window has no point in it, and one
/// within it has all its points in it. A left fan meets the window if and only if one of its edges does or it
/// holds the centre. It has a point.
pub fn extent_law(order: Order)
    ensures beyond { BeyondLaw (points_of order) }
    ensures within { InsideLaw (points_of order) }
    ensures test { TestLaw (points_of order) }
    ensures point { PointLaw (points_of order) }
{}

/// States what a descent finds. No tile of a part beyond a side of the window meets it, and each tile of a
/// part within the window does. The tiles of any other part that meet it are those of its parts. So with
/// right tests of parts the descent finds the tiles that meet the window, in the order of the full list.
pub fn descent_law(order: Order)
    ensures pruned { PrunedLaw (points_of order) }
    ensures taken { TakenLaw (points_of order) }
    ensures parts { PartsLaw (points_of order) }
    ensures whole { DescentLaw (points_of order) }
{}

/// States how the climb and the descent go on a frame. The first ancestor of the base whose polygon holds the
/// centre and has no edge that meets the window is at the least enough depth. The frame's tiles there are
/// those below it. What the descent finds are all tiles that meet the window, each exactly once, and they
/// cover it.
pub fn frame_descent_law(order: Order)
    ensures below { FrameBelowLaw (points_of order) }
    ensures drawn { FrameDescentLaw (points_of order) }
    ensures holds { HoldsLaw (points_of order) }
    ensures climb { ClimbLaw (points_of order) }
    ensures covers { FrameCoversLaw (points_of order) }
{}
