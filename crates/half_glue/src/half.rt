//! The other half of a tile, found by a crossing.
ghost use Rattle.std.specs.Prelude.{◌≡◌, ◌<◌};
ghost use Rattle.rule_model.specs.Tiling.{tiling_of};
ghost use Rattle.half_glue.specs.Ends.{FindsAcross};
ghost use Rattle.half_glue.specs.Given.{IsToJoin};

use crate::glue_fault::GlueFault;
use crate::glue_laws::glue_laws;
use cyclo_points::arithmetic::refused;
use edge_tables::steps::Steps;
use lazy_walk::frame::Frame;
use std::marker::Brand;
use std::sync::ledger::{Blank, Ledger};
use tile_place::machine::Machine;
use tile_place::placed_tile::PlacedTile;

/// How a given tile is glued.
#[derive(Drop)]
pub(crate) enum Found {
    /// The tile has no glue edge.
    Alone,
    /// The other half is the given tile with this number.
    Given(u32),
    /// The other half is this tile, found by crossing the glue edge.
    Crossed(PlacedTile),
}

/// Grows the frame until the glue edge of a given tile is not on the boundary, and crosses it.
pub(crate) fn crossed_half(
    machine: &Machine,
    frame: &mut Frame,
    tile: &PlacedTile,
    edge: u8,
) -> Result<Found, GlueFault>
    requires { IsToJoin (tiling_of machine.now) frame.old tile.now edge }
    ensures { FindsAcross (tiling_of machine.now) frame.old frame.new tile.now result }
{
    counted::<Brand>(machine, frame, tile, edge, Blank::new(1))
}

/// Like [`crossed_half`], and counts the look-ups on a ledger with this name.
fn counted<L: Ledger>(
    machine: &Machine,
    frame: &mut Frame,
    tile: &PlacedTile,
    edge: u8,
    blank: Blank,
) -> Result<Found, GlueFault>
    requires name { blank.name ≡ L.name }
    requires parts { blank.parts ≡ L.parts }
    requires some { 0 < blank.parts }
    requires to_join { IsToJoin (tiling_of machine.now) frame.old tile.now edge }
    ensures { FindsAcross (tiling_of machine.now) frame.old frame.new tile.now result }
{
    glue_laws(machine);
    machine.gluing_law();
    let mut steps = Steps::<L>::new(blank);
    let mut other = PlacedTile {
        kind: tile.kind,
        motion: tile.motion,
        addr: tile.addr.copy(),
    };
    frame.step_grow(machine, &mut other, edge, &mut steps)?;
    if refused(&other.motion.shift) {
        return Err(GlueFault::CoordLimit {
            value: other.motion.shift,
        });
    }
    Ok(Found::Crossed(other))
}
