//! The tile of a frame that holds a point: rows worked out by hand, and points compared with a list of all
//! tiles of the frame at each depth.
ghost use Rattle.std.specs.Prelude.{IfSome};
ghost use Rattle.theory_walks.specs.Frames.{IsFrameOf};
ghost use Rattle.rule_model.specs.Tiling.{tiling_of};

use crate::given::{deep, spelled, tile_text};
use crate::wrong::{Wrong, assert_of};
use builtin_rules::name::Name;
use cyclo_points::order::Order;
use cyclo_points::point::Point;
use lazy_walk::frame::Frame;
use std::alloc::{AllocError, Global};
use std::test::Fail;
use tile_place::coord_limit::CoordLimit;
use tile_place::machine::Machine;
use tile_place::placed_tile::PlacedTile;
use tile_shape::address::Address;
use tile_shape::no_memory::NoMemory;
use trial_plain_tiles::built_in::{NAMES, machine_of};
use trial_plain_tiles::counts::Counts;
use trial_plain_tiles::drawn_tile::{DrawnTile, drawn_tiles, holders};
use trial_plain_tiles::frame_tiles::{begun, frame_tiles};
use trial_plain_tiles::small::close;

/// The seed of all frames.
const START: u64 = 42;

/// The greatest depth of which all tiles are listed.
const DEEPEST: u8 = 3;

/// The frame of a base that has grown to a depth, where there is one.
fn grown(machine: &Machine, base: &Address, depth: u8) -> Option<Frame>
    ensures { IfSome result (IsFrameOf (tiling_of machine.now)) }
{
    if depth > 64 {
        return None;
    }
    let mut frame = begun(machine, base, START)?;
    frame.grow_to(machine, depth);
    Some(frame)
}

/// What is contained in the frame of a base that has grown to a depth, and the depth then; None where the
/// call's conditions aren't met.
fn contain(
    machine: &Machine,
    base: &Address,
    depth: u8,
    point: &Point,
) -> Option<(Result<PlacedTile, CoordLimit>, u8)> {
    if !close(point) {
        return None;
    }
    let mut frame = grown(machine, base, depth)?;
    let contained = frame.contain(machine, point);
    Some((contained, frame.depth()))
}

/// Returns points around the base: in orders four and six those up to 5, in the others those up to 1.
fn points(alloc: Global, order: Order) -> Result<Vec<Point>, Fail> {
    let mut points = Vec::new(alloc);
    let (far, deep): (i64, i64) = match order {
        Order::Four | Order::Six => (5, 0),
        Order::Eight | Order::Ten => (1, 1),
    };
    for a0 in -far..=far {
        for a1 in -far..=far {
            for a2 in -deep..=deep {
                for a3 in -deep..=deep {
                    points.push(Point {
                        c: [a0, a1, a2, a3],
                    })?;
                }
            }
        }
    }
    Ok(points)
}

/// Returns the result as a text: a tile's kind, turn, shift and address, or the first value that is refused.
/// The depth follows.
fn told(
    alloc: Global,
    machine: &Machine,
    base: &Address,
    depth: u8,
    point: &Point,
) -> Result<String, AllocError> {
    let (contained, depth) = match contain(machine, base, depth, point) {
        Some(found) => found,
        None => return "no frame".to_string(alloc),
    };
    match contained {
        Ok(tile) => text_at(alloc, &tile, depth),
        Err(CoordLimit { value }) => format!(in alloc; "CoordLimit {value} at {depth}"),
    }
}

/// A tile and a depth, as a text.
fn text_at(alloc: Global, tile: &PlacedTile, depth: u8) -> Result<String, AllocError> {
    let tile = tile_text(alloc, tile)?;
    format!(in alloc; "{tile} at {depth}")
}

/// Children that lead down to a base, its depth, a point, and what the base's frame contains: a tile of the
/// chair and the depth after it. The last point is next to the corner of every ancestor, and the second vertex
/// of that of level 24 is refused.
static ROWS: [(&[u8], usize, [i64; 4], &str); 4] = [
    (&[], 0, [1, 1, 0, 0], "0 1 3,1,0,0 0:1/0 at 1"),
    (&[], 0, [0, 0, 0, 0], "0 0 0,0,0,0 0: at 0"),
    (&[3], 64, [1, 1, 0, 0], "0 1 3,1,0,0 0:1/0«,0/0×63» at 64"),
    (
        &[],
        64,
        [-1, 0, 0, 0],
        "CoordLimit 16777216,33554432,0,0 at 64",
    ),
];

/// Returns true if this is told of a point.
fn is_told(
    alloc: Global,
    machine: &Machine,
    base: &Address,
    point: &Point,
    wanted: &str,
) -> Result<bool, AllocError> {
    let wanted = spelled(alloc, wanted)?;
    Ok(told(alloc, machine, base, 0, point)?.as_str() == wanted.as_str())
}

/// Notes the first point that is contained otherwise.
pub(crate) fn note_contained(alloc: Global, wrong: &mut Wrong, chair: &Machine) {
    for (row, (children, depth, c, wanted)) in ROWS.iter().enumerate() {
        let base = deep(children, *depth);
        let is_right = is_told(alloc, chair, &base, &Point { c: *c }, wanted);
        wrong.note("contained points", row, is_right.unwrap_or(false));
    }
}

/// The tiles of a base's frame at each depth.
fn lists(
    alloc: Global,
    machine: &Machine,
    base: &Address,
) -> Result<Vec<Vec<DrawnTile>>, NoMemory> {
    let mut lists = Vec::new(alloc);
    for depth in 0..=DEEPEST {
        if let Some(frame) = grown(machine, base, depth) {
            let tiles = frame_tiles(alloc, machine, &frame)?;
            lists.push(drawn_tiles(alloc, machine, tiles)?)?;
        }
    }
    Ok(lists)
}

/// The least depth from this one on at which a tile of the list holds a point, and that tile.
fn least<'a>(
    order: Order,
    lists: &'a [Vec<DrawnTile>],
    from: u8,
    point: &Point,
) -> Option<(&'a PlacedTile, u8)> {
    for depth in from..=DEEPEST {
        let tiles = lists.get(usize::from(depth))?;
        if let (1, Some(tile)) = holders(order, tiles.as_slice(), point) {
            return Some((tile, depth));
        }
    }
    None
}

/// Returns true if a point is contained in no frame of a depth that is listed.
fn lies_deeper(machine: &Machine, base: &Address, from: u8, point: &Point) -> bool {
    match contain(machine, base, from, point) {
        Some((_, depth)) => depth > DEEPEST,
        None => true,
    }
}

/// Counts the points around the base of a frame that are contained at the least depth, in the tile that is
/// listed there, and the others. The others are those that lie deeper than is listed but are found at a
/// lesser depth.
fn counted(alloc: Global, machine: &Machine) -> Result<Counts, Fail> {
    let base = Address::new(0);
    let order = machine.checked().order();
    let lists = lists(alloc, machine, &base)?;
    let points = points(alloc, order)?;
    let mut counts = Counts::default();
    for from in 0..=DEEPEST {
        for point in points.as_slice() {
            if let Some((tile, depth)) = least(order, lists.as_slice(), from, point) {
                let wanted = text_at(alloc, tile, depth)?;
                let text = told(alloc, machine, &base, from, point)?;
                counts.count(text.as_str() == wanted.as_str());
            } else if !lies_deeper(machine, &base, from, point) {
                counts.count(false);
            }
        }
    }
    Ok(counts)
}

#[test]
fn contains_each_point_at_the_least_depth(rt: HostRuntime) -> Result<(), Fail> {
    for name in NAMES {
        let machine = machine_of(rt.alloc(), name)?;
        let counts = counted(rt.alloc(), &machine)?;
        assert_of(&rt, name, counts.differ == 0 && counts.right >= 30);
    }
    Ok(())
}
