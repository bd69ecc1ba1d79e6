//! A half glued to its other half, which isn't given.
ghost use Rattle.std.specs.Prelude.{◌≡◌, ◌^◌, All, IfOk, true};
ghost use Rattle.cyclo_points.specs.Point.{IsWithin};
ghost use Rattle.rule_model.specs.Tiling.{tiling_of};
ghost use Rattle.theory_walks.specs.Frames.{IsFrameOf};
ghost use Rattle.lazy_walk.specs.Standing.{Stands};

use crate::given::tile_text;
use builtin_rules::name::Name;
use cyclo_points::arithmetic::refused;
use half_glue::given_law::given_law;
use half_glue::glue::glue;
use half_glue::glue_fault::GlueFault;
use half_glue::whole_tile::WholeTile;
use lazy_walk::frame::Frame;
use std::alloc::{AllocError, Global};
use tile_place::machine::Machine;
use tile_place::placed_tile::PlacedTile;
use tile_shape::address::Address;
use tile_shape::no_memory::NoMemory;
use tile_shape::reading::read_address;
use trial_plain_tiles::built_in::machine_of;
use trial_plain_tiles::frame_tiles::begun;

/// Returns true if no tile has a refused shift.
fn none_refused(tiles: &[PlacedTile]) -> bool
    ensures { result ≡ true → All (λ x. IsWithin (2 ^ 24) x.motion.shift) tiles.now }
{
    for number in 0..tiles.len() {
        let tile = &tiles[number];
        if refused(&tile.motion.shift) {
            return false;
        }
    }
    true
}

/// The whole tiles of tiles of the frame, where these are few and none is refused.
pub(crate) fn glued(
    alloc: Global,
    machine: &Machine,
    frame: &mut Frame,
    tiles: &Vec<PlacedTile>,
) -> Option<Result<Vec<WholeTile>, GlueFault>>
    requires frame { IsFrameOf (tiling_of machine.now) frame.old }
    requires stand { All (Stands (tiling_of machine.now) frame.old) tiles.now.items }
{
    given_law();
    if tiles.len() > 200000 || !none_refused(tiles.as_slice()) {
        return None;
    }
    Some(glue(alloc, machine, frame, tiles))
}

/// The base tile of a frame, alone.
fn base_alone(
    alloc: Global,
    machine: &Machine,
    frame: &Frame,
) -> Result<Vec<PlacedTile>, AllocError>
    requires frame { IsFrameOf (tiling_of machine.now) frame.now }
    ensures stand { IfOk result (λ tiles. All (Stands (tiling_of machine.now) frame.now) tiles.items) }
{
    let mut tiles = Vec::new(alloc);
    tiles.push(frame.base_tile(machine))?;
    Ok(tiles)
}

/// Returns whole tiles as lines, the second half after the first.
fn wholes_text(alloc: Global, wholes: &[WholeTile]) -> Result<String, AllocError> {
    let mut text = String::new(alloc);
    for whole in wholes {
        let first = &whole.first;
        text.push_str(tile_text(alloc, first)?.as_str())?;
        if let Some(second) = &whole.second {
            text.push_str(" + ")?;
            text.push_str(tile_text(alloc, second)?.as_str())?;
        }
    }
    Ok(text)
}

/// The whole tile of the base tile of an address.
fn told(alloc: Global, machine: &Machine, text: &[u8]) -> Result<String, AllocError> {
    let base = read_address(machine.checked().uses(), text).unwrap_or(Address::new(255));
    if let Some(mut frame) = begun(machine, &base, 42) {
        let tiles = base_alone(alloc, machine, &frame)?;
        if let Some(Ok(wholes)) = glued(alloc, machine, &mut frame, &tiles) {
            return wholes_text(alloc, wholes.as_slice());
        }
    }
    Ok(String::new(alloc))
}

/// Returns true if a half kite in the corner of a supertile, and its mirror image, are a kite.
pub(crate) fn is_kite(alloc: Global) -> Result<bool, NoMemory> {
    let machine = machine_of(alloc, Name::P2)?;
    let text = told(alloc, &machine, b"0:2/0")?;
    Ok(text.as_str() == "0 0 0,0,0,0 0:2/0 + 1 1 0,0,0,0 1:1/0")
}
