//! The tiles around vertices, compared with a list for all tiles of whole supertiles. Some stars are worked
//! out by hand, each returned by its own call.
ghost use Rattle.std.specs.Prelude.{◌≡◌, ◌<◌};

use crate::given::{deep, spelled, tile_text};
use crate::wrong::{Wrong, assert_of};
use builtin_rules::name::Name;
use edge_tables::steps::Steps;
use star_walk::star::Star;
use star_walk::star_fault::StarFault;
use star_walk::turn::star;
use std::alloc::{AllocError, Global};
use std::marker::Brand;
use std::sync::ledger::{Blank, Ledger};
use std::test::Fail;
use tile_shape::address::Address;
use tile_shape::no_memory::NoMemory;
use trial_plain_tiles::built_in::machine_of;
use trial_plain_tiles::counts::Counts;
use trial_plain_tiles::frame_tiles::begun;
use trial_plain_tiles::vertex_tiles::stars;

/// The greatest number of tiles of a frame that is listed.
const MOST_TILES: u64 = 1100;

/// The built-in rules, each with a number of vertices. They are the vertices of the tiles of its supertiles
/// of depth 0 to 3 whose frame then has few enough tiles. A script without the engine counts them: of 680,
/// 324, 324, 2376 and 425.
static NAMES: [(Name, u32); 5] = [
    (Name::Chair, 668),
    (Name::P2, 291),
    (Name::P3, 311),
    (Name::AmmannBeenker, 2192),
    (Name::HalfHex, 357),
];

/// Vertices worked out by hand: the rule, the children that lead from a tile of kind 0 down to the tile, its
/// depth, the vertex, and the tiles around it.
static ROWS: [(Name, &[u8], usize, u8, &str); 4] = [
    (
        Name::Chair,
        &[],
        0,
        0,
        "0 0 0,0,0,0 0:3/0 0\n0 1 3,1,0,0 0:1/0 2\n",
    ),
    (
        Name::HalfHex,
        &[0],
        1,
        2,
        "0 0 0,0,0,0 0:0/0 2\n0 2 3,0,0,0 0:1/0 2\n0 3 1,2,0,0 0:2/0 3\n",
    ),
    // The chair in the middle of four, and the midpoint of its lower side. Below that, the one in the corner
    // ends. Next to it is the one of the right arm.
    (
        Name::Chair,
        &[1],
        1,
        5,
        "0 0 0,0,0,0 0:1/0 5\n0 0 -1,-1,0,0 0:0/0 7\n0 1 3,-1,0,0 0:2/0 1\n",
    ),
    // The tile lies in the corner of every ancestor: its edges 3 and 4 are on the boundary, and lead to vertex 4.
    (Name::Chair, &[], 64, 4, "DepthLimit 0:0/0«,0/0×63» 3"),
];

/// Returns the tiles around a vertex as lines, or the fault.
fn told(alloc: Global, found: &Result<Star, StarFault>) -> Result<String, AllocError> {
    match found {
        Ok(star) => {
            let mut text = String::new(alloc);
            for corner in star.corners.as_slice() {
                text.push_str(tile_text(alloc, &corner.tile)?.as_str())?;
                write!(text, " {}\n", corner.vertex)?;
            }
            Ok(text)
        }
        Err(StarFault::DepthLimit { addr, edge }) => format!(in alloc; "DepthLimit {addr} {edge}"),
        Err(StarFault::TooBig) => "TooBig".to_string(alloc),
    }
}

/// What `star` answers of a vertex of a built-in rule.
fn star_text<L: Ledger>(
    alloc: Global,
    name: Name,
    base: &Address,
    vertex: u8,
    blank: Blank,
) -> Result<String, NoMemory>
    requires name { blank.name ≡ L.name }
    requires parts { blank.parts ≡ L.parts }
    requires some { 0 < blank.parts }
{
    let mut steps = Steps::<L>::new(blank);
    let machine = machine_of(alloc, name)?;
    let mut frame = match begun(&machine, base, 42) {
        Some(frame) => frame,
        None => return Ok("no base".to_string(alloc)?),
    };
    if vertex >= machine.checked().tables().edges(frame.base().kind) {
        return Ok("no vertex".to_string(alloc)?);
    }
    let found = star(&machine, &mut frame, vertex, &mut steps);
    Ok(told(alloc, &found)?)
}

/// Returns true if a vertex comes out as its row says.
fn is_right(alloc: Global, row: &(Name, &[u8], usize, u8, &str)) -> Result<bool, NoMemory> {
    let (name, children, depth, vertex, wanted) = row;
    let base = deep(children, *depth);
    let wanted = spelled(alloc, wanted)?;
    let text = star_text::<Brand>(alloc, *name, &base, *vertex, Blank::new(1))?;
    Ok(text.as_str() == wanted.as_str())
}

/// Notes the first vertex that comes out otherwise.
pub(crate) fn note_stars(alloc: Global, wrong: &mut Wrong) {
    for (number, row) in ROWS.iter().enumerate() {
        wrong.note("stars", number, is_right(alloc, row).unwrap_or(false));
    }
}

/// How the stars of a built-in rule come out.
fn counted<L: Ledger>(alloc: Global, name: Name, blank: Blank) -> Result<Counts, Fail>
    requires name { blank.name ≡ L.name }
    requires parts { blank.parts ≡ L.parts }
    requires some { 0 < blank.parts }
{
    let mut steps = Steps::<L>::new(blank);
    let machine = machine_of(alloc, name)?;
    Ok(stars(alloc, &machine, 3, MOST_TILES, &mut steps)?)
}

#[test]
fn whole_supertiles(rt: HostRuntime) -> Result<(), Fail> {
    for (name, number) in &NAMES {
        let counts = counted::<Brand>(rt.alloc(), *name, Blank::new(1))?;
        let wanted = Counts {
            right: *number,
            differ: 0,
        };
        assert_of(&rt, *name, counts == wanted);
    }
    Ok(())
}
