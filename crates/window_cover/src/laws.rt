//! The laws that the tiles of a window need, for the points of each order.
ghost use Rattle.cyclo_points.specs.Order.{PointsLaw, points_of};
ghost use Rattle.cyclo_points.specs.declared.order.Order.{Order};
ghost use Rattle.theory_windows.specs.FrameCover.{FrameFinishLaw};
ghost use Rattle.theory_windows.specs.FrameLaws.{FramePatchLaw};
ghost use Rattle.theory_windows.specs.Laws.{OpenTestLaw, OutlineLaw};

use cyclo_points::order::Order;
use cyclo_points::points_law;
use theory_windows::cover_laws::frame_search_law;
use theory_windows::frame_laws::frame_patch_law;
use theory_windows::patch_laws::outline_law;
use theory_windows::search_laws::open_edge_law;

/// The laws that the end of a search needs, for each order.
pub(crate) fn end_laws()
    ensures points { (o : Order) → PointsLaw o }
    ensures patch { (o : Order) → FramePatchLaw (points_of o) }
    ensures known { (o : Order) → OutlineLaw (points_of o) }
    ensures open_test { (o : Order) → OpenTestLaw (points_of o) }
    ensures finish { (o : Order) → FrameFinishLaw (points_of o) }
{
    end_laws_of(Order::Four);
    end_laws_of(Order::Six);
    end_laws_of(Order::Eight);
    end_laws_of(Order::Ten);
}

/// The laws that the end of a search needs, for one order.
fn end_laws_of(order: Order)
    ensures points { PointsLaw order }
    ensures patch { FramePatchLaw (points_of order) }
    ensures known { OutlineLaw (points_of order) }
    ensures open_test { OpenTestLaw (points_of order) }
    ensures finish { FrameFinishLaw (points_of order) }
{
    points_law(order);
    frame_patch_law(order);
    outline_law(order);
    open_edge_law(order);
    frame_search_law(order);
}
