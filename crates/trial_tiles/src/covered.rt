//! Windows that were worked out by hand.
use crate::given::{deep, listed, spelled};
use crate::wrong::Wrong;
use builtin_rules::name::Name;
use cyclo_points::point::Point;
use plane_geom::window::Window;
use std::alloc::{AllocError, Global};
use tile_place::machine::Machine;
use tile_shape::address::Address;
use tile_shape::no_memory::NoMemory;
use trial_plain_tiles::built_in::machine_of;
use trial_plain_tiles::window_tiles::covered;
use window_cover::cover_fault::CoverFault;

/// A window.
fn window(centre: [i64; 4], w: u16, h: u16) -> Window {
    Window {
        centre: Point { c: centre },
        w,
        h,
    }
}

/// A fault as its name and its fields.
fn fault_text(alloc: Global, fault: &CoverFault) -> Result<String, AllocError> {
    match fault {
        CoverFault::DepthLimit { addr, edge } => format!(in alloc; "DepthLimit {addr} {edge}"),
        CoverFault::CoordLimit { value } => format!(in alloc; "CoordLimit {value}"),
        CoverFault::TooManyTiles => "TooManyTiles".to_string(alloc),
        CoverFault::NoMemory => "NoMemory".to_string(alloc),
    }
}

/// Returns the outcome of a window: its tiles, and the depth of the frame after them, or the fault.
fn told(
    alloc: Global,
    machine: &Machine,
    base: &Address,
    window: &Window,
) -> Result<String, AllocError> {
    let (covered, frame) = match covered(alloc, machine, base, window) {
        Some(found) => found,
        None => return "no window".to_string(alloc),
    };
    match covered {
        Ok(tiles) => {
            let text = listed(alloc, tiles.as_slice())?;
            format!(in alloc; "{text}depth {}", frame.depth())
        }
        Err(fault) => fault_text(alloc, &fault),
    }
}

/// A rule, children that lead down to a base and its depth, the centre, the half-width and the half-height of a
/// window, and what comes of it.
type Row = (Name, &'static [u8], usize, [i64; 4], u16, u16, &'static str);

static ROWS: [Row; 6] = [
    (
        Name::Chair,
        &[],
        0,
        [1, 1, 0, 0],
        2,
        1,
        "0 0 0,0,0,0 0:3/0\n0 1 3,1,0,0 0:1/0\ndepth 1",
    ),
    (
        Name::Chair,
        &[3],
        64,
        [1, 1, 0, 0],
        2,
        1,
        "0 0 0,0,0,0 0:3/0«,0/0×63»\n0 1 3,1,0,0 0:1/0«,0/0×63»\ndepth 64",
    ),
    (
        Name::HalfHex,
        &[0],
        1,
        [1, 1, 0, 0],
        1,
        1,
        "0 0 0,0,0,0 0:0/0\n0 3 1,2,0,0 0:2/0\n0 2 3,0,0,0 0:1/0\ndepth 1",
    ),
    // the tile lies in the corner of every ancestor, and its edges 3 and 4 meet the window
    (
        Name::Chair,
        &[],
        64,
        [0, 0, 0, 0],
        2,
        1,
        "DepthLimit 0:0/0«,0/0×63» 3",
    ),
    // the centre is next to that corner, and the second vertex of the ancestor of level 24 is refused
    (
        Name::Chair,
        &[],
        64,
        [-1, 0, 0, 0],
        1,
        1,
        "CoordLimit 16777216,33554432,0,0",
    ),
    (
        Name::Chair,
        &[
            0, 0, 0, 0, 0, 0, 0, 0, 0, 0, 0, 0, 0, 0, 0, 0, 0, 0, 0, 0, 1,
        ],
        22,
        [0, 0, 0, 0],
        4000,
        4000,
        "TooManyTiles",
    ),
];

/// Returns true if a window comes out as its row says.
fn is_right(alloc: Global, row: &Row) -> Result<bool, NoMemory> {
    let (name, children, depth, centre, w, h, wanted) = row;
    let machine = machine_of(alloc, *name)?;
    let window = window(*centre, *w, *h);
    let wanted = spelled(alloc, wanted)?;
    let text = told(alloc, &machine, &deep(children, *depth), &window)?;
    Ok(text.as_str() == wanted.as_str())
}

/// Notes the first window that comes out otherwise.
pub(crate) fn note_covered(alloc: Global, wrong: &mut Wrong) {
    for (number, row) in ROWS.iter().enumerate() {
        wrong.note("windows", number, is_right(alloc, row).unwrap_or(false));
    }
}
