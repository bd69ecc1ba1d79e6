//! The whole tiles of a window.
ghost use Rattle.std.specs.Prelude.{◌≡◌, ◌<◌, length, slice_get, IfOk, IfErr, IfSome, IsTrue};
ghost use Rattle.std.specs.Option.{is_some};
ghost use Rattle.half_glue.specs.Given.{AreToGlue};
ghost use Rattle.rule_model.specs.Tiling.{tiling_of};
ghost use Rattle.window_cover.specs.InOrder as covered;
ghost use Rattle.c_values.specs.Statuses.{ok};
ghost use Rattle.tiling_c.specs.Glue.{ShowsTile, ShowsWhole, HoldsWholes, FindsWholes, RefusesGluing, GivesWholes, RefusesWholes, ShowsGlue, code_of_glue};

use crate::cover::find;
use crate::framed_window::framed_window;
use c_values::plain_address::PlainAddress;
use c_values::plain_frame::PlainFrame;
use c_values::plain_tile::PlainTile;
use c_values::plain_whole_tile::PlainWholeTile;
use c_values::plain_window::PlainWindow;
use c_values::shared_machine::SharedMachine;
use c_values::status::{COORD_LIMIT, DEPTH_LIMIT, NO_MEMORY, OK};
use cyclo_points::motion::Motion;
use half_glue::given_law::given_law;
use half_glue::glue_covered::glue_covered;
use half_glue::glue_fault::GlueFault;
use half_glue::glued_tiles::GluedTiles;
use half_glue::whole_laws::whole_tiles_law;
use lazy_walk::frame::Frame;
use std::alloc::Global;
use tile_place::machine::Machine;
use tile_shape::address::Address;
use window_cover::covered_tiles::CoveredTiles;

/// A part of a whole tile, as plain numbers.
#[derive(Clone, Copy)]
struct Part {
    tile: PlainTile,
    addr: PlainAddress,
}

/// Returns the part that a tile is.
fn part_of(kind: u8, motion: &Motion, addr: &Address) -> Part
    ensures { ShowsTile (record { kind = kind; motion = motion.now; addr = addr.now }) result.tile
        result.addr }
{
    let mut numbers = PlainAddress::blank();
    numbers.write(addr);
    Part {
        tile: PlainTile::placed(kind, motion, 0),
        addr: numbers,
    }
}

/// Returns the first part of the whole tile at a place in the order.
fn first_part(glued: &GluedTiles, place: usize) -> Part
    requires below { place < length glued.now }
    ensures { IfSome (slice_get glued.now place) (λ w. ShowsTile w.first result.tile result.addr) }
{
    let mut kind = 0;
    let mut motion = Motion::default();
    let mut addr = Address::new(0);
    glued.put_first(place, &mut kind, &mut motion, &mut addr);
    part_of(kind, &motion, &addr)
}

/// Returns its second part, which must exist.
fn second_part(glued: &GluedTiles, place: usize) -> Part
    requires below { place < length glued.now }
    requires is_pair { IfSome (slice_get glued.now place) (λ w. IsTrue (is_some w.second)) }
    ensures { IfSome (slice_get glued.now place)
        (λ w. IfSome w.second (λ x. ShowsTile x result.tile result.addr)) }
{
    let mut kind = 0;
    let mut motion = Motion::default();
    let mut addr = Address::new(0);
    glued.put_second(place, &mut kind, &mut motion, &mut addr);
    part_of(kind, &motion, &addr)
}

/// Returns the whole tile at a place in the order.
fn whole_of(glued: &GluedTiles, place: usize) -> PlainWholeTile
    requires below { place < length glued.now }
    ensures { IfSome (slice_get glued.now place) (λ w. ShowsWhole w result) }
{
    let first = first_part(glued, place);
    if glued.is_pair(place) {
        let second = second_part(glued, place);
        PlainWholeTile {
            tiles: [first.tile, second.tile],
            addrs: [first.addr, second.addr],
            parts: 2,
        }
    } else {
        PlainWholeTile {
            tiles: [first.tile, PlainTile::refused(0)],
            addrs: [first.addr, PlainAddress::blank()],
            parts: 1,
        }
    }
}

/// Puts whole tiles into an array, as far as there is room.
fn put_wholes(glued: &GluedTiles, wholes: &mut [PlainWholeTile])
    ensures { HoldsWholes glued.now wholes.old wholes.new }
{
    let room = glued.len().min(wholes.len());
    for place in 0..room {
        wholes[place] = whole_of(glued, place);
    }
}

/// Returns the status of a fault.
fn status_of(fault: &GlueFault) -> u8
    ensures { result ≡ code_of_glue fault.now }
{
    match fault {
        GlueFault::DepthLimit { .. } => DEPTH_LIMIT,
        GlueFault::CoordLimit { .. } => COORD_LIMIT,
        GlueFault::NoMemory => NO_MEMORY,
    }
}

/// Glues the tiles of a window, in a frame that grows on. Err has the status of the fault.
fn glue(
    alloc: Global,
    machine: &Machine,
    frame: &mut Frame,
    tiles: CoveredTiles,
) -> Result<GluedTiles, u8>
    requires to_glue { AreToGlue (tiling_of machine.now) frame.old tiles }
    requires in_order { covered.AreInOrder tiles }
    ensures glued { IfOk result (FindsWholes (tiling_of machine.now) frame.old tiles frame.new) }
    ensures ended { IfErr result (RefusesGluing (tiling_of machine.now) frame.old tiles) }
{
    match glue_covered(alloc, machine, frame, tiles) {
        Ok(glued) => Ok(glued),
        Err(fault) => Err(status_of(&fault)),
    }
}

/// Finds the whole tiles of the tiles of a frame that meet a window. Err has the status of the refusal.
fn wholes_of(
    alloc: Global,
    machine: &Machine,
    frame: &PlainFrame,
    window: &PlainWindow,
) -> Result<GluedTiles, u8>
    ensures given { IfOk result (GivesWholes (tiling_of machine.now) frame.now window.now) }
    ensures refused { IfErr result (RefusesWholes (tiling_of machine.now) frame.now window.now) }
{
    given_law();
    whole_tiles_law(machine);
    let mut given = framed_window(machine, frame, window)?;
    let tiles = find(alloc, machine, &mut given)?;
    glue(alloc, machine, &mut given.frame, tiles)
}

/// Finds the whole tiles of the tiles of a frame that meet a window, ordered by the shift, then the turn,
/// then the kind of their first parts. Returns how many there are, and as many of them as there is room for.
#[unsafe(no_mangle)]
pub extern "C" fn tiling_glue(
    alloc: Global,
    t: SharedMachine,
    frame: &PlainFrame,
    window: &PlainWindow,
    wholes: &mut [PlainWholeTile],
    count: &mut usize,
) -> u8
    ensures shown { ShowsGlue (tiling_of t.rule) frame.now window.now wholes.old wholes.new count.new result }
    ensures unchanged { ¬ result ≡ ok → (wholes.new ≡ wholes.old) × (count.new ≡ count.old) }
{
    match wholes_of(alloc, t.get(), frame, window) {
        Ok(glued) => {
            put_wholes(&glued, wholes);
            *count = glued.len();
            OK
        }
        Err(status) => status,
    }
}
