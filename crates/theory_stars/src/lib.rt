//! The tiles around a vertex of a dissected patch, and of one that grows.
//!
//! A turn goes from tile to tile, each across the edge of the one before that ends at the vertex. It comes
//! back to its first tile, and has then visited exactly the tiles that have the vertex. In a patch that grows
//! it comes back at the least depth at which the vertex is on no edge of the patch's boundary. The reason is
//! the law of closed chains, on a box around the vertex so small that only edges at the vertex meet it. The
//! crate has definitions, proofs and laws, and no other code.
#![tactic(auto)]

ghost use Rattle.cyclo_points.specs.Order.{points_of};
ghost use Rattle.theory_stars.specs.Laws.{TurnLaw, AnswerLaw, OnwardLaw, EndLaw, WholeStarLaw, DepthLaw, CountLaw};
ghost use Rattle.theory_stars.specs.FrameStar.{SimpleFrameLaw, FrameNextLaw, FrameStarLaw, FrameCornersLaw};
ghost use Rattle.theory_stars.specs.OnPolygon.{FrameOffLaw, FrameLeastLaw};
ghost use Rattle.theory_stars.specs.FrameStar.{FrameBaseLaw, FrameBackLaw, TurnStopLaw};

use cyclo_points::order::Order;

/// States that a turn that comes back has visited exactly the tiles that have the vertex, each exactly once.
pub fn turn_law(order: Order)
    ensures { TurnLaw (points_of order) }
{}

/// States how the turn goes in a patch that grows. If it comes back, the depth to which it has led is the
/// least that is enough for the vertex. It never leads beyond an enough depth. If some depth is enough, it
/// comes back after at most as many tiles as have the vertex. Then each further depth is enough too, and no
/// more tiles have the vertex there.
pub fn star_law(order: Order)
    ensures answers { AnswerLaw (points_of order) }
    ensures onward { OnwardLaw (points_of order) }
    ensures end { EndLaw (points_of order) }
    ensures whole { WholeStarLaw (points_of order) }
{}

/// States why a turn stops. If the edge that ends at the vertex is on the boundary, the depth is not enough.
/// A turn that has not come back has met distinct tiles with the vertex.
pub fn star_refusal_law(order: Order)
    ensures depth { DepthLaw (points_of order) }
    ensures count { CountLaw (points_of order) }
{}

/// States how the turn goes in a frame of an accepted rule. Its tiles are a dissection into simple polygons.
/// The tile across the edge that ends at the vertex is the next one, and the frame grows to its level. The
/// turn is then one of the frame of the depth that is reached.
pub fn frame_star_law(order: Order)
    ensures simple { SimpleFrameLaw (points_of order) }
    ensures next { FrameNextLaw (points_of order) }
    ensures star { FrameStarLaw (points_of order) }
    ensures corners { FrameCornersLaw (points_of order) }
{}

/// States what the base is in a frame. It is in the position of its prototile, so its vertices are the
/// prototile's. A tile with the vertex is the base if and only if it has the base's address. If the edge that
/// ends at the vertex is on the boundary at the frame's own depth, that depth is not enough.
pub fn frame_base_law(order: Order)
    ensures base { FrameBaseLaw (points_of order) }
    ensures back { FrameBackLaw (points_of order) }
    ensures stop { TurnStopLaw (points_of order) }
{}

/// States that a depth is enough for a point if and only if the point is on no edge of the frame's polygon
/// there.
pub fn frame_off_law(order: Order)
    ensures off { FrameOffLaw (points_of order) }
    ensures least { FrameLeastLaw (points_of order) }
{}
