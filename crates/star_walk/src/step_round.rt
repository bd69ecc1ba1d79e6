//! From a corner to the one after it in turning order, while the frame grows.
ghost use Rattle.std.specs.Prelude.{◌≡◌, ◌↔◌, ◌<◌, IsErr, IfErr, OnOk};
ghost use Rattle.theory_walks.specs.Boundary.{IsBoundaryEdge};
ghost use Rattle.lazy_walk.specs.Crossed.{IsToCross, IsCrossedTo, IsLimitAt};
ghost use Rattle.theory_walks.specs.Frames.{IsFrameOf, GrowsTo, lifted_at};
ghost use Rattle.rule_model.specs.Tiling.{tiling_of};
ghost use Rattle.tile_place.specs.Crossed.{edges_of};
ghost use Rattle.tile_shape.specs.Views.{address_of};
ghost use Rattle.theory_stars.specs.Corners.{edge_into};
ghost use Rattle.star_walk.specs.Found.{its_edge};

use crate::corner::Corner;
use edge_tables::steps::Steps;
use lazy_walk::depth_limit::DepthLimit;
use lazy_walk::frame::Frame;
use std::sync::ledger::Ledger;
use tile_place::machine::Machine;

/// Returns the number of the edge that ends at a vertex.
fn edge_before(edges: u8, vertex: u8) -> u8
    requires below { vertex < edges }
    ensures number { result ≡ edge_into edges vertex }
    ensures exists { result < edges }
{
    if vertex == 0 { edges - 1 } else { vertex - 1 }
}

/// Crosses the edge that ends at the corner's vertex, and replaces the corner by the next one. The frame
/// grows until that edge is not on the boundary. The edge that leads back starts at the vertex, so it has the
/// vertex's number.
pub(crate) fn step_round<L: Ledger>(
    machine: &Machine,
    frame: &mut Frame,
    corner: &mut Corner,
    steps: &mut Steps<L>,
) -> Result<(), DepthLimit>
    requires frame { IsFrameOf (tiling_of machine.now) frame.old }
    requires tile { IsToCross (tiling_of machine.now) frame.old corner.old.tile }
    requires vertex_exists { corner.old.vertex < edges_of (tiling_of machine.now) corner.old.tile.addr.kind }
    ensures frame { GrowsTo (tiling_of machine.now) frame.old frame.new }
    ensures crossed { OnOk result
        (IsCrossedTo (tiling_of machine.now) frame.old frame.new (address_of corner.old.tile.addr)
        corner.old.tile.motion (its_edge (tiling_of machine.now) corner.old) corner.new.tile
        corner.new.vertex) }
    ensures limit_exactly { IsErr result
        ↔ IsBoundaryEdge (tiling_of machine.now)
        (lifted_at (tiling_of machine.now) frame.old (address_of corner.old.tile.addr) 64)
        (its_edge (tiling_of machine.now) corner.old) }
    ensures limit { IfErr result (IsLimitAt (tiling_of machine.now) frame.old frame.new
        (address_of corner.old.tile.addr) (its_edge (tiling_of machine.now) corner.old)) }
{
    let edges = machine.checked().tables().edges(corner.tile.addr.kind);
    let edge = edge_before(edges, corner.vertex);
    corner.vertex = frame.step_grow(machine, &mut corner.tile, edge, steps)?;
    Ok(())
}
