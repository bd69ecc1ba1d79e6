//! Windows compared with lists of all tiles of the frame. Some windows are random. Others have vertices and
//! midpoints of edges as centres: their sides run through vertices, along edges, and through corners of tiles
//! that they only touch.
use crate::listed::{Outcome, outcome_of};
use crate::wrong::{NONE, Wrong};
use builtin_rules::name::Name;
use plane_geom::window::Window;
use std::alloc::Global;
use tile_place::machine::Machine;
use tile_shape::address::Address;
use tile_shape::no_memory::NoMemory;
use trial_plain_tiles::built_in::machine_of;
use trial_plain_tiles::drawn_tile::drawn_tiles;
use trial_plain_tiles::draws::Draws;
use trial_plain_tiles::points::points;
use trial_plain_tiles::supertile::tiles;

/// The built-in rules.
const RULES: [(Name, &str); 5] = [
    (Name::Chair, "chair"),
    (Name::P2, "p2"),
    (Name::P3, "p3"),
    (Name::AmmannBeenker, "ab"),
    (Name::HalfHex, "halfhex"),
];

/// How many windows are alike, how many tiles they have, and how many windows are unlike.
#[derive(Clone, Copy, Default)]
struct Counts {
    windows: u32,
    tiles: usize,
    unlike: u32,
}

impl Counts {
    /// Counts a window; one that can't be tried is unlike.
    fn count(&mut self, outcome: Result<Outcome, NoMemory>) {
        match outcome {
            Ok(Outcome::Alike(tiles)) => {
                self.windows = self.windows.saturating_add(1);
                self.tiles = self.tiles.saturating_add(tiles);
            }
            Ok(Outcome::TooMany) => (),
            _ => self.unlike = self.unlike.saturating_add(1),
        }
    }
}

/// Draws 50 windows that can be listed, from bases of depth 0 to 3.
fn drawn(alloc: Global, rule: &str, machine: &Machine) -> Counts {
    let order = machine.checked().order();
    let mut draws = Draws { state: 11 };
    let mut counts = Counts::default();
    for _ in 0..2000 {
        let depth = draws.below(4);
        let any = draws.below(2) == 0;
        let seed = draws.below(1 << 31);
        let base = draws.address(machine, depth, any);
        let window = draws.window(order, 2);
        if let Some(base) = base {
            counts.count(outcome_of(alloc, rule, machine, seed, &base, &window));
        }
        if counts.windows == 50 {
            break;
        }
    }
    counts
}

/// The first rule of which not each of 50 windows is alike, or which have few tiles.
fn first_drawn(alloc: Global) -> Wrong {
    let mut wrong = NONE;
    for (name, rule) in &RULES {
        let counts = match machine_of(alloc, *name) {
            Ok(machine) => drawn(alloc, rule, &machine),
            Err(_) => Counts::default(),
        };
        let Counts {
            windows,
            tiles,
            unlike,
        } = counts;
        wrong.note(rule, tiles, windows == 50 && unlike == 0 && tiles >= 200);
    }
    wrong
}

/// Draws windows around the vertices, the midpoints of edges and points inside the tiles of a supertile of
/// depth 2, in the frame of one of its tiles, up to 30 that can be listed.
fn touching(
    alloc: Global,
    rule: &str,
    machine: &Machine,
    base: &Address,
) -> Result<Counts, NoMemory> {
    let order = machine.checked().order();
    let near = tiles(alloc, machine, base.kind, 2, &Default::default())?;
    let near = drawn_tiles(alloc, machine, near)?;
    let points = points(alloc, order, near.as_slice())?;
    let mut counts = Counts::default();
    for (place, point) in points.as_slice().iter().enumerate() {
        let window = Window {
            centre: *point,
            w: if place & 1 == 0 { 1 } else { 2 },
            h: if place & 2 == 0 { 1 } else { 2 },
        };
        counts.count(outcome_of(alloc, rule, machine, 42, base, &window));
        if counts.windows == 30 {
            break;
        }
    }
    Ok(counts)
}

/// The same for a base that is drawn.
fn touching_drawn(alloc: Global, rule: &str, name: Name) -> Result<Counts, NoMemory> {
    let machine = machine_of(alloc, name)?;
    let mut draws = Draws { state: 3 };
    let base = draws.address(&machine, 2, true).unwrap_or(Address::new(0));
    touching(alloc, rule, &machine, &base)
}

/// The first rule of which a window that touches what it doesn't meet is unlike, or which has few.
fn first_touching(alloc: Global) -> Wrong {
    let mut wrong = NONE;
    for (name, rule) in &RULES {
        let counts = touching_drawn(alloc, rule, *name).unwrap_or(Counts::default());
        let is_right = counts.windows >= 10 && counts.unlike == 0;
        wrong.note(rule, counts.tiles, is_right);
    }
    wrong
}

#[test]
fn drawn_windows(rt: HostRuntime) {
    first_drawn(rt.alloc()).assert_none(&rt);
}

#[test]
fn touching_windows(rt: HostRuntime) {
    first_touching(rt.alloc()).assert_none(&rt);
}
