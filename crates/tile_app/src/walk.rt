//! The command `walk`: the tiles along a path, in a frame that grows.
ghost use Rattle.std.specs.Prelude.{◌≡◌, ◌≤◌, None, IfOk, IfErr, length, string_bytes};
ghost use Rattle.call_words.specs.PathWords.{longest_path};
ghost use Rattle.cyclo_points.specs.declared.order.Order.{Order};
ghost use Rattle.cyclo_points.specs.Motion.{motion_in};
ghost use Rattle.cyclo_points.specs.Point.{IsOf};
ghost use Rattle.rule_model.specs.Tiling.{tiling_of};
ghost use Rattle.theory_walks.specs.Frames.{whole, IsFrameOf};
ghost use Rattle.theory_walks.specs.Paths.{CanBeWalked};
ghost use Rattle.tile_app.specs.BaseFrame.{IsBegun};
ghost use Rattle.call_notes.specs.Status.{OrNoMemory};
ghost use Rattle.tile_app.specs.TileLine.{tile_line};
ghost use Rattle.tile_app.specs.Walk.{IsWalkText, PrintsWalk, WalkRefuses};
ghost use Rattle.tile_shape.specs.Views.{address_of};

use crate::tile_line::write_line;
use call_notes::status::Status;
use edge_tables::steps::Steps;
use layer_api::line::Line;
use lazy_walk::frame::Frame;
use std::alloc::{AllocError, Global};
use std::sync::ledger::Ledger;
use tile_place::machine::Machine;
use tile_place::placed_tile::PlacedTile;

/// Returns the line of the base.
fn first_line(alloc: Global, tile: &PlacedTile) -> Result<String, AllocError>
    ensures { IfOk result (λ text. (order : Order) → IsOf order tile.now.motion.shift
        → tile.now.kind ≡ tile.now.addr.kind
        → string_bytes text ≡ tile_line order (address_of tile.now.addr)
        (motion_in order tile.now.motion) None) }
{
    let PlacedTile { kind, motion, addr } = tile;
    format!(in alloc; "{kind} {motion} {addr} -\n")
}

/// Returns the text of a path that can be walked in the frame as it is.
fn lines<L: Ledger>(
    alloc: Global,
    machine: &Machine,
    frame: &Frame,
    path: &[u8],
    steps: &mut Steps<L>,
) -> Result<Vec<u8>, AllocError>
    requires frame { IsFrameOf (tiling_of machine.now) frame.now }
    requires walked { CanBeWalked (tiling_of machine.now) (whole frame.now) path.now }
    requires at_most_1000 { length path.now ≤ longest_path }
    ensures { IfOk result (λ text. IsWalkText (tiling_of machine.now) (whole frame.now) path.now text.items) }
{
    let mut tile = frame.base_tile(machine);
    let mut text = first_line(alloc, &tile)?.into_bytes();
    let mut line = Line::new();
    for edge in path {
        let back = frame.step(machine, &mut tile, *edge, steps).unwrap();
        write_line(&mut text, &mut line, &tile, back)?;
    }
    Ok(text)
}

/// Returns what `walk` prints for a path in the frame of a base, or its refusal.
pub fn walk_text<L: Ledger>(
    alloc: Global,
    machine: &Machine,
    frame: &mut Frame,
    grow: u8,
    path: &[u8],
    steps: &mut Steps<L>,
) -> Result<Vec<u8>, Status>
    requires frame { IsFrameOf (tiling_of machine.now) frame.old }
    requires begun { IsBegun frame.old }
    requires at_most_64 { grow ≤ 64 }
    requires at_most_1000 { length path.now ≤ longest_path }
    ensures printed { IfOk result (λ text. PrintsWalk
        (tiling_of machine.now) frame.old grow path.now text.items) }
    ensures refused { IfErr result (OrNoMemory (WalkRefuses (tiling_of machine.now) frame.old path.now)) }
{
    frame.grow_to(machine, grow);
    frame.grow_along(machine, path, steps)?;
    Ok(lines(alloc, machine, frame, path, steps)?)
}
