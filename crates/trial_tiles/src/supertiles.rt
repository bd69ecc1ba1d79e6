//! Whole supertiles: every edge of every tile, by the ends of edges and by crossing.
ghost use Rattle.std.specs.Prelude.{◌≡◌, ◌<◌};

use crate::placed::{across, followed, glue_motion, times};
use crate::sides::{Side, sides};
use crate::wrong::assert_of;
use builtin_rules::name::Name;
use cyclo_points::motion::Motion;
use cyclo_points::point::Point;
use edge_tables::steps::Steps;
use rule_model::rule::Rule;
use std::alloc::Global;
use std::marker::Brand;
use std::sync::ledger::{Blank, Ledger};
use std::test::Fail;
use tile_place::machine::Machine;
use tile_place::placed_tile::PlacedTile;
use tile_shape::address::Address;
use tile_shape::step::Step;
use transducer_core::crossing::Crossing;
use trial_plain_tiles::built_in::machine_of;

/// The built-in rules, each with the number of edges of all tiles of its supertiles of depth 1 to 4. A chair
/// has 8 edges and is cut into 4, and half a hexagon has 5. The halves of kites and darts, and of rhombs, are
/// cut into Fibonacci numbers of tiles, with two mirrored kinds of each. The numbers are 3, 8, 21, 55 and 2,
/// 5, 13, 34. A rhomb of Ammann and Beenker is cut into 3 rhombs and 4 halves of squares, and each of the two
/// halves of a square into 2 and 3.
static NAMES: [(Name, u64); 5] = [
    (Name::Chair, 8 * (4 + 16 + 64 + 256)),
    (Name::P2, 2 * 3 * (3 + 8 + 21 + 55 + 2 + 5 + 13 + 34)),
    (Name::P3, 2 * 3 * (3 + 8 + 21 + 55 + 2 + 5 + 13 + 34)),
    (
        Name::AmmannBeenker,
        4 * (3 + 17 + 99 + 577)
            + 3 * (4 + 24 + 140 + 816)
            + 2 * (4 * (2 + 12 + 70 + 408) + 3 * (3 + 17 + 99 + 577)),
    ),
    (Name::HalfHex, 5 * (4 + 16 + 64 + 256)),
];

/// One tile of each kind: the supertiles of depth 0.
fn lone_tiles(alloc: Global, rule: &Rule) -> Result<Vec<Vec<PlacedTile>>, Fail> {
    let mut all = Vec::new(alloc);
    for kind in 0..16 {
        if usize::from(kind) < rule.kind_count() {
            let mut tiles = Vec::new(alloc);
            tiles.push(PlacedTile {
                kind,
                motion: Motion::default(),
                addr: Address::new(kind),
            })?;
            all.push(tiles)?;
        }
    }
    Ok(all)
}

/// Returns the supertile of a kind, one level deeper. It has the tiles of each child's supertile, each with
/// the child's digit at the coarse end. The child's motion, inflated by this power of the factor, follows the
/// tile's.
fn one_deeper(
    alloc: Global,
    rule: &Rule,
    kind: u8,
    finer: &[Vec<PlacedTile>],
    power: &Point,
) -> Result<Vec<PlacedTile>, Fail> {
    let parent = usize::from(kind);
    let mut tiles = Vec::new(alloc);
    for number in 0..16 {
        if parent < rule.kind_count() && usize::from(number) < rule.child_count(parent) {
            let child = rule.child(parent, usize::from(number));
            if let Some(below) = finer.get(usize::from(child.kind)) {
                for tile in below {
                    let mut addr = tile.addr.copy();
                    let digit = Step {
                        child: number,
                        parent: kind,
                    };
                    let motion = times(rule.order, power, &child.shift).and_then(|shift| {
                        let own = Motion {
                            turn: child.turn,
                            shift,
                        };
                        followed(rule.order, &tile.motion, &own)
                    });
                    if let (Ok(()), Some(motion)) = (addr.push_coarse(digit), motion) {
                        tiles.push(PlacedTile {
                            kind: tile.kind,
                            motion,
                            addr,
                        })?;
                    }
                }
            }
        }
    }
    Ok(tiles)
}

/// Returns true if the machine finds across an edge what the ends of all edges show. It must find the only
/// other tile whose edge runs from its end to its start, or `Outside` if there is none. Each tile must lie
/// where the list has it, and the tile across where the gluing motion puts it.
fn is_right<L: Ledger>(
    machine: &Machine,
    tiles: &[PlacedTile],
    all: &[Side],
    side: &Side,
    steps: &mut Steps<L>,
) -> bool {
    let mut found: usize = 0;
    let mut last = None;
    for other in all {
        if other.tile != side.tile && other.start == side.end && other.end == side.start {
            found = found.saturating_add(1);
            last = Some((other.tile, other.edge));
        }
    }
    let tile = match tiles.get(side.tile) {
        Some(tile) => tile,
        None => return false,
    };
    match across(machine, &tile.addr, side.edge, steps) {
        Some(Ok(Crossing { addr, edge })) => match last {
            Some((number, own)) => match tiles.get(number) {
                Some(other) => {
                    let motion = glue_motion(machine, tile.kind, side.edge, other.kind, edge);
                    let order = machine.checked().order();
                    found == 1
                        && other.addr == addr
                        && own == edge
                        && motion.and_then(|m| followed(order, &m, &tile.motion))
                            == Some(other.motion)
                }
                None => false,
            },
            None => false,
        },
        Some(Err(_)) => found == 0,
        None => false,
    }
}

/// How many edges of the supertiles of a rule, up to this depth, come out otherwise, and how many there are.
fn compare<L: Ledger>(
    alloc: Global,
    machine: &Machine,
    depth: u8,
    steps: &mut Steps<L>,
) -> Result<(u64, u64), Fail> {
    let rule = machine.checked().rule();
    let mut finer = lone_tiles(alloc, rule)?;
    let mut power = Point { c: [1, 0, 0, 0] };
    let mut wrong: u64 = 0;
    let mut number: u64 = 0;
    for _ in 0..depth {
        let mut deeper = Vec::new(alloc);
        for kind in 0..16 {
            if usize::from(kind) < rule.kind_count() {
                deeper.push(one_deeper(alloc, rule, kind, finer.as_slice(), &power)?)?;
            }
        }
        for tiles in &deeper {
            let all = sides(alloc, rule, tiles.as_slice())?;
            for side in &all {
                number = number.saturating_add(1);
                if !is_right(machine, tiles.as_slice(), all.as_slice(), side, steps) {
                    wrong = wrong.saturating_add(1);
                }
            }
        }
        finer = deeper;
        power = match times(rule.order, &power, &rule.factor) {
            Some(power) => power,
            None => return Ok((u64::MAX, 0)),
        };
    }
    Ok((wrong, number))
}

/// The same, by a counter of its own, of a built-in rule.
fn counted<L: Ledger>(alloc: Global, name: Name, blank: Blank) -> Result<(u64, u64), Fail>
    requires name { blank.name ≡ L.name }
    requires parts { blank.parts ≡ L.parts }
    requires some { 0 < blank.parts }
{
    let mut steps = Steps::<L>::new(blank);
    let machine = machine_of(alloc, name)?;
    compare(alloc, &machine, 4, &mut steps)
}

#[test]
fn whole_supertiles(rt: HostRuntime) -> Result<(), Fail> {
    for (name, edges) in &NAMES {
        let counts = counted::<Brand>(rt.alloc(), *name, Blank::new(1))?;
        assert_of(&rt, *name, counts == (0, *edges));
    }
    Ok(())
}
