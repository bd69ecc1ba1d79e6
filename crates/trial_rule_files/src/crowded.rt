//! The stars of rules that put very many tiles around a vertex: the most that are allowed, and one more.
ghost use Rattle.std.specs.Prelude.{◌≡◌, ◌<◌};

use edge_tables::steps::Steps;
use rule_model::checked::Checked;
use star_walk::star::Star;
use star_walk::star_fault::StarFault;
use std::alloc::Global;
use std::marker::Brand;
use std::sync::ledger::{Blank, Ledger};
use tile_place::machine::Machine;
use tile_shape::address::Address;
use tile_shape::no_memory::NoMemory;
use tile_shape::reading::read_address;
use trial_plain_tiles::frame_tiles::begun;

/// A tile of such a rule, and the number of a vertex of it that very many tiles have.
const TILE: &[u8] = b"3:0/1,6/0,0/0";

const VERTEX: u8 = 1;

/// Returns how many tiles are around the vertex of a tile.
fn round<L: Ledger>(
    alloc: Global,
    machine: &Machine,
    base: &Address,
    blank: Blank,
) -> Result<String, NoMemory>
    requires name { blank.name ≡ L.name }
    requires parts { blank.parts ≡ L.parts }
    requires some { 0 < blank.parts }
{
    let mut steps = Steps::<L>::new(blank);
    let mut frame = match begun(machine, base, 42) {
        Some(frame) if VERTEX < machine.checked().tables().edges(frame.base().kind) => frame,
        _ => return Ok("no such vertex".to_string(alloc)?),
    };
    let mut star = Star::new();
    match star.find(machine, &mut frame, VERTEX, &mut steps) {
        Ok(()) => Ok(format!(in alloc; "{} tiles round a vertex", star.corners.len())?),
        Err(StarFault::TooBig) => Ok("more than 64 tiles round a vertex".to_string(alloc)?),
        Err(StarFault::DepthLimit { .. }) => Ok("a vertex that is never inside".to_string(alloc)?),
    }
}

/// Returns the result for the vertex of an accepted rule.
pub fn crowded(alloc: Global, rule: Checked) -> Result<String, NoMemory> {
    let machine = Box::new(alloc, Machine::new(alloc, rule)?)?;
    match read_address(machine.checked().uses(), TILE) {
        Ok(base) => round::<Brand>(alloc, &machine, &base, Blank::new(1)),
        Err(_) => Ok("no such tile".to_string(alloc)?),
    }
}
