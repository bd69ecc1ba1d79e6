//! The laws of the search for the tiles of a window, for the points of each order. Tiles are named by
//! address and motion.
ghost use Rattle.cyclo_points.specs.Order.{points_of};
ghost use Rattle.theory_windows.specs.Laws.{StartLaw, StepLaw, FinishLaw, OpenTestLaw, OpenNumberLaw, OpenStepLaw};
ghost use Rattle.theory_windows.specs.Laws.{FoundOrOpenLaw, NoneOpenLaw};
ghost use Rattle.theory_windows.specs.Laws.{DepthRefusalLaw, AllDrawnLaw, CountRefusalLaw, GoesOnLaw};
ghost use Rattle.theory_windows.specs.Laws.{EndsWithinLaw};

use cyclo_points::order::Order;

/// States that a search for the tiles of a window keeps its state right, from the tile at the centre by steps
/// across open edges. If no edge is open, it has found all that it must find.
pub fn search_law(order: Order)
    ensures start { StartLaw (points_of order) }
    ensures step { StepLaw (points_of order) }
    ensures finish { FinishLaw (points_of order) }
{}

/// States that a test of each edge finds the open ones. Each is named by its tile's number and its own, and
/// meets the window. The new ones are found by comparing the new tile's edges with open edges only.
pub fn open_edge_law(order: Order)
    ensures tested { OpenTestLaw (points_of order) }
    ensures numbers { OpenNumberLaw (points_of order) }
    ensures step { OpenStepLaw (points_of order) }
{}

/// States that a search may cross each edge that meets the window, open or not. The tile across it is found
/// already, or the edge is open. If all these tiles are found, no edge is open.
pub fn every_edge_law(order: Order)
    ensures found_or_open { FoundOrOpenLaw (points_of order) }
    ensures none_open { NoneOpenLaw (points_of order) }
{}

/// States why a search stops. If no tile is across an open edge, no depth is enough. A tile found meets the
/// window at each enough depth, and the tiles found are no more than meet it there.
pub fn refusal_law(order: Order)
    ensures depth { DepthRefusalLaw (points_of order) }
    ensures drawn { AllDrawnLaw (points_of order) }
    ensures count { CountRefusalLaw (points_of order) }
{}

/// States that the search goes on if the window is within the limits, and comes to its end only then.
pub fn limits_law(order: Order)
    ensures onward { GoesOnLaw (points_of order) }
    ensures end { EndsWithinLaw (points_of order) }
{}
