//! The command `neighbour`: the tile across an edge.
ghost use Rattle.std.specs.Prelude.{◌≡◌, ◌≤◌, ◌+◌, IfOk, IfErr, string_bytes};
ghost use Rattle.rule_model.specs.Tiling.{tiling_of, children};
ghost use Rattle.tile_shape.specs.Accepted.{IsAcceptedAddress};
ghost use Rattle.tile_shape.specs.Views.{address_of};
ghost use Rattle.tile_app.specs.Answer.{TileRefuses};
ghost use Rattle.tile_app.specs.Neighbour.{neighbour_line, PrintsNeighbour, NeighbourRefuses};
ghost use Rattle.call_notes.specs.Status.{OrNoMemory};
ghost use Rattle.tile_app.specs.Tile.{OfTile};

use crate::tile::tile_at;
use call_notes::status::Status;
use edge_tables::steps::Steps;
use rule_model::checked::Checked;
use std::alloc::{AllocError, Global};
use std::sync::ledger::Ledger;
use tile_place::machine::Machine;
use tile_shape::address::Address;

/// Returns the line of the tile across an edge: its address, and the number of its edge that leads back.
fn neighbour_line(alloc: Global, across: &Address, edge: u8) -> Result<String, AllocError>
    ensures { IfOk result (λ text. string_bytes text ≡ neighbour_line (address_of across.now) edge) }
{
    format!(in alloc; "{across} {edge}\n")
}

/// Returns what `neighbour` prints for an edge of a tile, or its refusal. Adds its table look-ups to `steps`:
/// at most twice the depth, plus two, so at most 130.
fn across<L: Ledger>(
    alloc: Global,
    machine: &Machine,
    address: &Address,
    edge: u8,
    steps: &mut Steps<L>,
) -> Result<Vec<u8>, Status>
    requires accepted { IsAcceptedAddress (children (tiling_of machine.now)) (address_of address.now) }
    ensures printed { IfOk result (λ text. PrintsNeighbour (tiling_of machine.now)
        (address_of address.now) edge text.items) }
    ensures refused { IfErr result (OrNoMemory (NeighbourRefuses (tiling_of machine.now)
        (address_of address.now) edge)) }
    ensures steps_within_bound { steps.new ≤ steps.old + 130 }
{
    let edges = machine.checked().tables().edges(address.kind);
    if edge >= edges {
        return Err(Status::NoEdge { edge, edges });
    }
    let crossing = machine.cross(address, edge, steps)?;
    Ok(neighbour_line(alloc, &crossing.addr, crossing.edge)?.into_bytes())
}

/// Returns what `neighbour` prints for an edge of the tile with this address, or its refusal. The address is
/// read before the machine of the rule is made.
pub fn neighbour_text<L: Ledger>(
    alloc: Global,
    checked: Checked,
    addr: &str,
    edge: u8,
    steps: &mut Steps<L>,
) -> Result<Vec<u8>, Status>
    ensures printed { IfOk result (λ text. OfTile (tiling_of checked) addr.now
        (λ a. PrintsNeighbour (tiling_of checked) a edge text.items)) }
    ensures refused { IfErr result (OrNoMemory (TileRefuses (tiling_of checked) addr.now
        (λ a. NeighbourRefuses (tiling_of checked) a edge))) }
    ensures steps_within_bound { steps.new ≤ steps.old + 130 }
{
    let address = tile_at(&checked, addr)?;
    let machine = Machine::new(alloc, checked)?;
    across(alloc, &machine, &address, edge, steps)
}
