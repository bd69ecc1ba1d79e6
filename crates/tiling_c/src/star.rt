//! The tiles around a vertex.
ghost use Rattle.std.specs.Prelude.{◌≡◌, ◌<◌, ◌≤◌, length, IfOk, IfErr};
ghost use Rattle.rule_model.specs.Tiling.{tiling_of};
ghost use Rattle.star_walk.specs.Corners.{HasVertex};
ghost use Rattle.c_values.specs.Statuses.{ok};
ghost use Rattle.tiling_c.specs.Star.{HoldsCorners, FindsStar, EndsStar, GivesStar, RefusesStar, ShowsStar, code_of_star};

use c_values::plain_frame::PlainFrame;
use c_values::plain_tile::PlainTile;
use c_values::plain_vertex_star::PlainVertexStar;
use c_values::shared_machine::SharedMachine;
use c_values::status::{BAD_ADDRESS, DEPTH_LIMIT, NO_VERTEX, OK, STAR_TOO_BIG};
use edge_tables::steps::Steps;
use lazy_walk::frame::Frame;
use star_walk::corner::Corner;
use star_walk::star::Star;
use star_walk::star_fault::StarFault;
use star_walk::turn::star;
use std::marker::Brand;
use std::sync::ledger::{Blank, Ledger};
use tile_place::machine::Machine;

/// Puts corners, of which there is room for 64.
fn put_corners(corners: &[Corner], out: &mut PlainVertexStar)
    requires at_most_64 { length corners.now ≤ 64 }
    ensures { HoldsCorners corners.now out.old out.new }
{
    out.count = corners.len() as u8;
    for i in 0..corners.len() {
        let corner = &corners[i];
        out.tiles[i] = PlainTile::placed(corner.tile.kind, &corner.tile.motion, corner.vertex);
        out.addrs[i].write(&corner.tile.addr);
    }
}

/// Returns the status of a fault.
fn status_of(fault: &StarFault) -> u8
    ensures { result ≡ code_of_star fault.now }
{
    match fault {
        StarFault::DepthLimit { .. } => DEPTH_LIMIT,
        StarFault::TooBig => STAR_TOO_BIG,
    }
}

/// Finds the tiles around a vertex of a frame's base. Counts the look-ups on a ledger of this name, which
/// nobody reads. Err has the status of the fault.
fn find<L: Ledger>(
    machine: &Machine,
    frame: &mut Frame,
    vertex: u8,
    blank: Blank,
) -> Result<Star, u8>
    requires blank { (blank.name ≡ L.name) × (blank.parts ≡ L.parts) × (0 < blank.parts) }
    requires vertex { HasVertex (tiling_of machine.now) frame.old vertex }
    ensures found { IfOk result (λ found. FindsStar (tiling_of machine.now) frame.old vertex
        found.corners.items) }
    ensures ended { IfErr result (EndsStar (tiling_of machine.now) frame.old vertex) }
{
    let mut steps = Steps::<L>::new(blank);
    match star(machine, frame, vertex, &mut steps) {
        Ok(found) => Ok(found),
        Err(fault) => Err(status_of(&fault)),
    }
}

/// Like [`find`], for plain numbers. Err has the status of the refusal.
fn star_of(machine: &Machine, frame: &PlainFrame, vertex: u8) -> Result<Star, u8>
    ensures given { IfOk result (λ found. GivesStar (tiling_of machine.now) frame.now vertex
        found.corners.items) }
    ensures refused { IfErr result (RefusesStar (tiling_of machine.now) frame.now vertex) }
{
    let Some(mut grown) = frame.frame(machine) else {
        return Err(BAD_ADDRESS);
    };
    if vertex >= machine.checked().tables().edges(frame.base.kind) {
        return Err(NO_VERTEX);
    }
    find::<Brand>(machine, &mut grown, vertex, Blank::new(1))
}

/// Finds the tiles of a frame that have a vertex of its base, in turning order from the base.
#[unsafe(no_mangle)]
pub extern "C" fn tiling_star(
    t: SharedMachine,
    frame: &PlainFrame,
    vertex: u8,
    out: &mut PlainVertexStar,
) -> u8
    ensures shown { ShowsStar (tiling_of t.rule) frame.now vertex out.old out.new result }
    ensures unchanged { ¬ result ≡ ok → out.new ≡ out.old }
{
    match star_of(t.get(), frame, vertex) {
        Ok(found) => {
            put_corners(found.corners.as_slice(), out);
            OK
        }
        Err(status) => status,
    }
}
