//! The words of a window, and the texts of the tiles that are listed for it.
use crate::drawings::{ALL, comes_to, layers_of};
use plane_geom::window::Window;
use std::alloc::{AllocError, Global};
use tile_place::machine::Machine;
use tile_place::placed_tile::PlacedTile;
use tile_shape::address::Address;
use tile_shape::no_memory::NoMemory;
use trial_plain_tiles::least_frame::least_frame;
use trial_plain_tiles::window_tiles::listed;

/// The greatest number of tiles of a frame that is listed.
const MOST_TILES: u64 = 1100;

// Puts an address: the kind, and the child and the parent of each digit.
fn put_address(text: &mut String, addr: &Address) -> Result<(), AllocError> {
    let kind = addr.kind;
    write!(text, "{kind}:")?;
    let mut comma = "";
    for digit in addr.digits.as_slice() {
        let child = digit.child;
        let parent = digit.parent;
        write!(text, "{comma}{child}/{parent}")?;
        comma = ",";
    }
    Ok(())
}

// What is drawn: the line of each tile, and then how many there are of each kind and in all.
fn text_of(alloc: Global, machine: &Machine, tiles: &[PlacedTile]) -> Result<String, AllocError> {
    let mut text = String::from_str(alloc, "0 ")?;
    for tile in tiles {
        let kind = tile.kind;
        let turn = tile.motion.turn;
        let [a, b, c, d] = tile.motion.shift.c;
        write!(text, "{kind} {turn} {a},{b},{c},{d} ")?;
        put_address(&mut text, &tile.addr)?;
        text.push('\n')?;
    }
    for kind in 0..machine.checked().tables().kinds() {
        let count = tiles.iter().filter(|tile| tile.kind == kind).count();
        write!(text, "{kind} {count}\n")?;
    }
    let count = tiles.len();
    write!(text, "all {count}\n|")?;
    Ok(text)
}

// The words that draw a window's list and census.
fn words(
    alloc: Global,
    rule: &str,
    seed: u64,
    base: &Address,
    window: &Window,
) -> Result<String, AllocError> {
    let [a, b, c, d] = window.centre.c;
    let w = window.w;
    let h = window.h;
    let mut line = format!(in alloc;
        "draw rule={rule} seed={seed} at={a},{b},{c},{d} half={w},{h} layers=list,census addr="
    )?;
    put_address(&mut line, base)?;
    Ok(line)
}

/// What comes of a window, compared with the listed tiles: how many there are, if both agree; or the frame
/// has too many tiles to list.
#[derive(Clone, Copy, PartialEq, Eq)]
pub enum Outcome {
    Alike(usize),
    Unlike,
    TooMany,
}

/// Draws a window in the frame of a base, and compares the texts with the listed tiles.
pub fn outcome_of(
    alloc: Global,
    rule: &str,
    machine: &Machine,
    seed: u64,
    base: &Address,
    window: &Window,
) -> Result<Outcome, NoMemory> {
    let frame = match least_frame(alloc, machine, base, seed, window, MOST_TILES)? {
        Some(frame) => frame,
        None => return Ok(Outcome::TooMany),
    };
    let tiles = listed(alloc, machine, &frame, window)?;
    let wanted = text_of(alloc, machine, tiles.as_slice())?;
    let line = words(alloc, rule, seed, base, window)?;
    let layers = layers_of(alloc, ALL)?;
    let is_alike = comes_to(alloc, line.as_str(), layers, wanted.as_str());
    Ok(if is_alike {
        Outcome::Alike(tiles.len())
    } else {
        Outcome::Unlike
    })
}
