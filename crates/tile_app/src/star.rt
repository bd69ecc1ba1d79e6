//! The command `star`: the tiles around a vertex.
ghost use Rattle.std.specs.Prelude.{◌≡◌, IfOk, IfErr, All, map};
ghost use Rattle.std.specs.List.{flat_map};
ghost use Rattle.theory_walks.specs.Frames.{FrameValue, IsFrameOf};
ghost use Rattle.lazy_walk.specs.Standing.{Stands};
ghost use Rattle.rule_model.specs.Tiling.{Tiling, tiling_of};
ghost use Rattle.star_walk.specs.Corners.{corner_in};
ghost use Rattle.tile_app.specs.BaseFrame.{IsBegun};
ghost use Rattle.tile_app.specs.Star.{corner_line, PrintsStar, StarRefuses};
ghost use Rattle.call_notes.specs.Status.{OrNoMemory};

use crate::tile_line::write_line;
use call_notes::status::Status;
use edge_tables::steps::Steps;
use layer_api::line::Line;
use lazy_walk::frame::Frame;
use star_walk::corner::Corner;
use star_walk::turn::star;
use std::alloc::{AllocError, Global};
use std::sync::ledger::Ledger;
use tile_place::machine::Machine;

/// Returns the lines of the tiles around a vertex, each in its place in a frame.
fn star_lines(alloc: Global, corners: &[Corner]) -> Result<Vec<u8>, AllocError>
    ensures { IfOk result (λ text. (t : Tiling) (f : FrameValue) → All
        (λ (c : Corner). Stands t f c.tile) corners.now
        → text.items ≡ flat_map (corner_line t) (map (corner_in t.order) corners.now)) }
{
    let mut text = Vec::new(alloc);
    let mut line = Line::new();
    for corner in corners {
        write_line(&mut text, &mut line, &corner.tile, corner.vertex)?;
    }
    Ok(text)
}

/// Returns the text that `star` prints for a vertex of the base of a frame, or its refusal. Adds the look-ups
/// of all crossings to `steps`.
pub fn star_text<L: Ledger>(
    alloc: Global,
    machine: &Machine,
    frame: &mut Frame,
    vertex: u8,
    steps: &mut Steps<L>,
) -> Result<Vec<u8>, Status>
    requires frame { IsFrameOf (tiling_of machine.now) frame.old }
    requires begun { IsBegun frame.old }
    ensures printed { IfOk result (λ text. PrintsStar (tiling_of machine.now) frame.old vertex text.items) }
    ensures refused { IfErr result (OrNoMemory (StarRefuses (tiling_of machine.now) frame.old vertex)) }
{
    let edges = machine.checked().tables().edges(frame.base().kind);
    if vertex >= edges {
        return Err(Status::NoVertex { vertex, edges });
    }
    let found = star(machine, frame, vertex, steps)?;
    Ok(star_lines(alloc, found.corners.as_slice())?)
}
