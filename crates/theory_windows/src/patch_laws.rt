//! The laws of dissected patches and of the windows on them, for the points of each order. Tiles are
//! named by address and motion.
ghost use Rattle.cyclo_points.specs.Order.{points_of};
ghost use Rattle.theory_windows.specs.Laws.{RotationLaw, OutlineGluingLaw, WholesLaw, WindowLaw, OutlineLaw, OwnerLaw};
ghost use Rattle.theory_windows.specs.Laws.{EnoughLaw, SearchAnswersLaw, SearchEndsLaw, OneAcrossLaw};
ghost use Rattle.theory_windows.specs.Laws.{InnerFromLevelLaw, HeldFromLevelLaw, DrawnSameLaw, DrawnOrderLaw};
ghost use Rattle.theory_windows.specs.Laws.{CoversOrderLaw};

use cyclo_points::order::Order;

/// States the theorem of the window. Let some tiles of a dissected patch be such that one holds the centre,
/// and the tile across each of their edges that meets the window is one of them. Then each tile that meets
/// the window is one of them, and they cover it. A search that comes to its end returns such tiles, at the
/// least enough depth, and it comes to its end exactly within the limits.
pub fn window_law(order: Order)
    ensures found { WindowLaw (points_of order) }
    ensures answers { SearchAnswersLaw (points_of order) }
    ensures ends { SearchEndsLaw (points_of order) }
{}

/// States that two polygons glued along an edge count together as the outline of both. A polygon counts the
/// same from whichever vertex it begins. Whole tiles cover a window if the tiles they are glued from do.
pub fn gluing_law(order: Order)
    ensures rotation { RotationLaw (points_of order) }
    ensures gluing { OutlineGluingLaw (points_of order) }
    ensures covering { WholesLaw (points_of order) }
{}

/// States that a tile of a dissected patch is known by its outline, and that two tiles that share no point
/// share no directed edge.
pub fn outline_law(order: Order)
    ensures known { OutlineLaw (points_of order) }
    ensures one_owner { OwnerLaw (points_of order) }
{}

/// States when a depth of a growing patch is enough for a window. It is enough if and only if the patch's
/// polygon holds the centre and none of its edges meets the window.
pub fn enough_law(order: Order)
    ensures { EnoughLaw (points_of order) }
{}

/// States that the tiles that meet a window at a depth are determined up to their order, and cover the window
/// in any order.
pub fn drawn_law(order: Order)
    ensures same { DrawnSameLaw (points_of order) }
    ensures drawn { DrawnOrderLaw (points_of order) }
    ensures covers { CoversOrderLaw (points_of order) }
{}

/// States that at most one tile is across an edge. In a growing patch the edge is inner exactly from that
/// tile's level on, and a test point is held exactly from its holder's level on.
pub fn from_level_law(order: Order)
    ensures one { OneAcrossLaw (points_of order) }
    ensures inner { InnerFromLevelLaw (points_of order) }
    ensures held { HeldFromLevelLaw (points_of order) }
{}
