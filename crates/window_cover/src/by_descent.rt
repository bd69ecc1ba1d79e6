//! Finds the tiles of a window from the top down.
ghost use Rattle.std.specs.Prelude.{◌≡◌, [], None, length, IfOk, IfSome, IsTrue};
ghost use Rattle.cyclo_points.specs.Point.{point_in};
ghost use Rattle.rule_model.specs.Tiling.{tiling_of};
ghost use Rattle.theory_walks.specs.Ancestors.{full};
ghost use Rattle.lazy_walk.specs.Ancestors.{IsAncestor};
ghost use Rattle.theory_walks.specs.Containing.{first_refused_outward};
ghost use Rattle.theory_walks.specs.Frames.{IsFrameOf, GrowsTo};
ghost use Rattle.window_descent.specs.Climbing.{IsClimbedTo};
ghost use Rattle.window_cover.specs.Answered.{IsFoundBelow, IsAnswered};
ghost use Rattle.window_cover.specs.Gathering.{gathered};
ghost use Rattle.window_cover.specs.Runs.{AreRuns};
ghost use Rattle.window_cover.specs.Windows.{IsWindow};

use crate::blocks::Blocks;
use crate::border::Border;
use crate::cover::Cover;
use crate::found_tiles::FoundTiles;
use crate::runs::Runs;
use arrayvec::ArrayVec;
use lazy_walk::ancestor::Ancestor;
use lazy_walk::frame::Frame;
use plane_geom::window::Window;
use seeded_growth::laws::grown_fits_law;
use std::alloc::Global;
use tile_place::machine::Machine;
use tile_shape::no_memory::NoMemory;
use tile_shape::step::Step;
use window_descent::climb::climb;
use window_descent::part::Part;
use window_descent::rows::Rows;

/// The least product of half-width and half-height, in units, for which the descent is used. In a smaller
/// window most tiles are near a side, and each of these needs exact tests. There a search across edges is
/// cheaper.
const LEAST_EXTENTS: u32 = 180;

/// Finds the tiles of a window by a pruned descent from the first ancestor of the base that holds it. The
/// frame grows to that ancestor.
///
/// Returns None if the window is small, if a value on the way is refused, or if there are too many tiles. Err
/// if memory runs out.
pub(crate) fn by_descent(
    alloc: Global,
    machine: &Machine,
    frame: &mut Frame,
    window: &Window,
) -> Result<Option<FoundTiles>, NoMemory>
    requires frame { IsFrameOf (tiling_of machine.now) frame.old }
    requires window_fits { IsWindow window.now }
    ensures frame { GrowsTo (tiling_of machine.now) frame.old frame.new }
    ensures answered { IfOk result (λ answer. IfSome answer
        (IsAnswered (tiling_of machine.now) frame.old frame.new window.now)) }
{
    grown_fits_law();
    let checked = machine.checked();
    let _usable = checked.uses().kinds();
    let from = frame.depth();
    if is_small(window) || !is_contained(machine, frame, window) {
        return Ok(None);
    }
    let top = match climb(machine, frame, window, from) {
        Some(top) => top,
        None => return Ok(None),
    };
    if top.level != frame.depth() {
        return Ok(None);
    }
    match found_below(alloc, machine, frame, window, &top)? {
        Some(runs) => Ok(Some(runs.arranged(alloc, frame))),
        None => Ok(None),
    }
}

/// Returns true if a search from the centre is cheaper.
fn is_small(window: &Window) -> bool {
    u32::from(window.w) * u32::from(window.h) < LEAST_EXTENTS
}

/// Returns true only if the frame's supertile can be made to hold the centre without a refused value. The
/// frame grows until it does.
fn is_contained(machine: &Machine, frame: &mut Frame, window: &Window) -> bool
    requires frame { IsFrameOf (tiling_of machine.now) frame.old }
    requires window_fits { IsWindow window.now }
    ensures frame { GrowsTo (tiling_of machine.now) frame.old frame.new }
    ensures found { IsTrue result
        → first_refused_outward (tiling_of machine.now) frame.old
        (point_in machine.now.order window.now.centre) ≡ None }
{
    frame.contain(machine, &window.centre).is_ok()
}

/// Finds the tiles that meet a window, below an ancestor of the base, which is the frame's supertile.
fn found_below(
    alloc: Global,
    machine: &Machine,
    frame: &Frame,
    window: &Window,
    top: &Ancestor,
) -> Result<Option<Runs>, NoMemory>
    requires frame { IsFrameOf (tiling_of machine.now) frame.now }
    requires window_fits { IsWindow window.now }
    requires ancestor { IsAncestor (tiling_of machine.now) (full (tiling_of machine.now) frame.now) top.now }
    requires own_level { top.now.level ≡ length frame.now.digits }
    ensures { IfOk result (λ answer. IfSome answer (λ runs. AreRuns runs
        × IsFoundBelow (tiling_of machine.now) frame.now window.now (gathered runs))) }
{
    let mut rows = match Rows::new(alloc, machine, top.level)? {
        Some(rows) => rows,
        None => return Ok(None),
    };
    let part = Part {
        kind: frame.kind_of(machine, top.level),
        motion: top.motion,
    };
    let mut path = [Step {
        child: 0,
        parent: 0,
    }; 64];
    let mut blocks = Blocks::new(alloc, machine, window)?;
    let mut runs = Runs::new(alloc, nothing_found(alloc, window));
    let done = runs.gather(
        machine,
        &mut rows,
        &mut blocks,
        &mut path[..top.level as usize],
        top.level,
        &part,
        false,
    )?;
    if done { Ok(Some(runs)) } else { Ok(None) }
}

/// Makes a state for a window, with nothing found.
fn nothing_found(alloc: Global, window: &Window) -> Cover
    ensures window { result.window ≡ window.now }
    ensures found { result.found ≡ [] }
    ensures border { result.border ≡ [] }
{
    Cover {
        window: *window,
        found: Vec::new(alloc),
        digits: Vec::new(alloc),
        border: Border::new(alloc),
        corners: ArrayVec::new(),
    }
}
