//! Finds the first ancestor of a base that holds a window.
ghost use Rattle.std.specs.Prelude.{◌≡◌, ◌≤◌, ◌^◌, length, max, IfSome};
ghost use Rattle.cyclo_points.specs.Point.{IsWithin};
ghost use Rattle.theory_walks.specs.Ancestors.{full};
ghost use Rattle.lazy_walk.specs.Ancestors.{IsAncestor};
ghost use Rattle.theory_walks.specs.Frames.{IsFrameOf, GrowsTo};
ghost use Rattle.rule_model.specs.Tiling.{tiling_of};
ghost use Rattle.window_descent.specs.Climbing.{IsTried, IsClimbedTo};
ghost use Rattle.window_descent.specs.Reach.{IsInReach};

use crate::meeting::holds;
use lazy_walk::ancestor::Ancestor;
use lazy_walk::frame::Frame;
use plane_geom::window::Window;
use tile_place::machine::Machine;

/// Finds the first ancestor, at level `from` or above, whose polygon holds the window. The frame grows as
/// needed to reach each ancestor.
///
/// Returns None if a value on the way is refused, or if no ancestor up to level 64 holds the window. No
/// clause speaks of this case.
pub fn climb(machine: &Machine, frame: &mut Frame, window: &Window, from: u8) -> Option<Ancestor>
    requires frame { IsFrameOf (tiling_of machine.now) frame.old }
    requires centre_within { IsInReach window.now }
    ensures frame { GrowsTo (tiling_of machine.now) frame.old frame.new }
    ensures deep { IfSome result (λ top. top.level ≤ length frame.new.digits) }
    ensures ancestor { IfSome result (IsAncestor (tiling_of machine.now)
        (full (tiling_of machine.now) frame.old)) }
    ensures first { IfSome result (λ top. IsClimbedTo (tiling_of machine.now)
        (full (tiling_of machine.now) frame.old) window.now from top.level) }
{
    let mut ancestor = Ancestor::base();
    loop {
        match tried(machine, frame, &ancestor, window, from) {
            Some(true) => return Some(ancestor),
            Some(false) => {}
            None => return None,
        }
        if ancestor.level == 64 {
            return None;
        }
        match frame.next_out(machine, &ancestor) {
            Ok(next) => ancestor = next,
            Err(_) => return None,
        }
    }
}

/// Tests if an ancestor has the level or a higher one, and holds the window. Returns None if one of its
/// vertices is refused.
fn tried(
    machine: &Machine,
    frame: &Frame,
    ancestor: &Ancestor,
    window: &Window,
    from: u8,
) -> Option<bool>
    requires frame { IsFrameOf (tiling_of machine.now) frame.now }
    requires deep { ancestor.now.level ≤ length frame.now.digits }
    requires ancestor { IsAncestor (tiling_of machine.now)
        (full (tiling_of machine.now) frame.now) ancestor.now }
    requires centre_within { IsInReach window.now }
    ensures { IfSome result (IsTried (tiling_of machine.now)
        (full (tiling_of machine.now) frame.now) window.now from ancestor.now.level) }
{
    if ancestor.level < from {
        return Some(false);
    }
    let order = machine.checked().order();
    let kind = frame.kind_of(machine, ancestor.level);
    match machine.outline(kind, &ancestor.power, &ancestor.motion) {
        Ok(corners) => Some(holds(order, window, corners.as_slice())),
        Err(_) => None,
    }
}
