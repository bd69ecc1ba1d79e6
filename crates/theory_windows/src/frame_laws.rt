//! The laws of the frames of an accepted rule, for the points of each order: a frame is a dissected
//! patch that grows.
ghost use Rattle.cyclo_points.specs.Order.{points_of};
ghost use Rattle.theory_windows.specs.Laws.{LevelLaw, LiftLevelLaw};
ghost use Rattle.theory_windows.specs.FrameLaws.{FramePatchLaw, LiftLaw, NamedLaw, LinesLaw, ReverseLaw, InnerLaw};
ghost use Rattle.theory_windows.specs.FrameLaws.{NumberedLaw, ReverseTestLaw, OutsideLaw, FramePolygonLaw, FrameEnoughLaw};
ghost use Rattle.theory_windows.specs.FrameSearch.{GrownLevelLaw, RenamedLaw, AtDepthLaw, KnownLaw};
ghost use Rattle.theory_windows.specs.FrameSearch.{FrameAcrossLaw, GrownCrossingLaw};
ghost use Rattle.theory_windows.specs.FrameSearch.{GluedCrossingLaw, LastBoundaryLaw, HolderLevelLaw, AncestorHoldsLaw};
ghost use Rattle.theory_windows.specs.FrameWindow.{DrawnLaw, CoversLaw, LeastLaw, WithinLaw};

use cyclo_points::order::Order;

/// States what levels are. For two lists with equally many digits, the level is at most n if and only if the
/// digits from number n up are equal. This holds for digits of depth n, lifted, and for no others.
pub fn level_law()
    ensures level { LevelLaw }
    ensures lifts { LiftLevelLaw }
{}

/// States that the tiles of a frame are a dissected patch, which grows as the frame does. At a depth they are
/// the tiles of the base's ancestor's frame there, lifted, each with the motion that it has there.
pub fn frame_patch_law(order: Order)
    ensures dissected { FramePatchLaw (points_of order) }
    ensures lifted { LiftLaw (points_of order) }
    ensures named { NamedLaw (points_of order) }
{}

/// States what the edges of a frame's tiles are. They are those of the outline, by their numbers. A test of
/// their ends shows whether one is the reverse of another. The tile across an edge in the supertile is the
/// tile across it in the frame. At a depth an edge is inner if and only if there is such a tile. It is not
/// inner if and only if it lies on the supertile's boundary.
pub fn frame_edge_law(order: Order)
    ensures lines { LinesLaw (points_of order) }
    ensures numbered { NumberedLaw (points_of order) }
    ensures reverse_test { ReverseTestLaw (points_of order) }
    ensures across { ReverseLaw (points_of order) }
    ensures inner { InnerLaw (points_of order) }
    ensures outside { OutsideLaw (points_of order) }
{}

/// States that the frame's polygon at a depth is that of its tiles there. So the depth is enough for a window
/// if and only if this polygon holds the centre and none of its edges meets the window.
pub fn frame_polygon_law(order: Order)
    ensures whole { FramePolygonLaw (points_of order) }
    ensures enough { FrameEnoughLaw (points_of order) }
{}

/// States what the names of a frame's tiles are. The frame of an ancestor is the frame before it grew
/// further. A tile lifted there has the same name in the whole frame. All tiles exist at the frame's own
/// depth, and each is known by its kind and motion.
pub fn frame_name_law(order: Order)
    ensures before_growth { GrownLevelLaw }
    ensures renamed { RenamedLaw (points_of order) }
    ensures at_depth { AtDepthLaw (points_of order) }
    ensures known { KnownLaw (points_of order) }
{}

/// States how crossings and growth go together. The tile across in the supertile is across in the frame. The
/// least depth at which it is found is its level, unless the frame is as deep already. Its motion is the one
/// that glues the two edges, followed by the tile's. If the edge is on the boundary at the frame's own depth,
/// no tile is across it.
pub fn frame_crossing_law(order: Order)
    ensures across { FrameAcrossLaw (points_of order) }
    ensures grown { GrownCrossingLaw (points_of order) }
    ensures glued { GluedCrossingLaw (points_of order) }
    ensures last { LastBoundaryLaw (points_of order) }
{}

/// States that a frame holds a point at the depths from the level of its holder on. These are the levels of
/// the base's ancestors, found level by level, that hold it.
pub fn frame_holds_law(order: Order)
    ensures level { HolderLevelLaw (points_of order) }
    ensures outward { AncestorHoldsLaw (points_of order) }
{}

/// States what a window is on a frame. The frame's own tiles that meet it are those of the patch that do, and
/// cover the same. The least depth at which the frame's polygon holds the centre and none of its edges meets
/// the window is the least enough one. The limits are the same.
pub fn frame_window_law(order: Order)
    ensures drawn { DrawnLaw (points_of order) }
    ensures covers { CoversLaw (points_of order) }
    ensures least { LeastLaw (points_of order) }
    ensures within { WithinLaw (points_of order) }
{}
