//! Tiles as runs of leaves.
ghost use Rattle.std.specs.Prelude.{◌≡◌, ◌+◌, ◌<◌, ◌≤◌, ◌^◌, ◌++◌, [], drop, length, map, take, IfOk, IfSome, IsTrue};
ghost use Rattle.cyclo_points.specs.Point.{IsWithin};
ghost use Rattle.tile_shape.specs.Views.{step_of};
ghost use Rattle.window_cover.specs.Covered.{placed_as, tile_of};
ghost use Rattle.window_cover.specs.Runs.{AreRuns, CanRun, IsPushed, run_tiles, seen, moved_by, shifted_by};

use crate::admit::MOST_TILES;
use crate::block::Block;
use crate::cover::{Cover, no_tile};
use crate::lifted::{behind, put_digits};
use crate::run::Run;
use crate::run_tile::RunTile;
use cyclo_points::motion::Motion;
use cyclo_points::point::Point;
use std::alloc::Global;
use tile_place::placed_tile::PlacedTile;
use tile_shape::address::Address;
use tile_shape::no_memory::NoMemory;
use tile_shape::step::Step;

/// Tiles as runs of leaves. A leaf is a tile of a part that is not moved. A run moves the leaves of a block
/// to a part that has the same turn.
///
/// So a tile is a run and a leaf. Its shift is the sum of their shifts, and the run's digits follow the
/// leaf's.
#[derive(Drop)]
pub(crate) struct Runs {
    pub(crate) leaves: Cover,
    pub(crate) runs: Vec<Run>,
    /// The digits of all runs, one run's after another's.
    spans: Vec<Step>,
    tiles: Vec<RunTile>,
}

impl Runs {
    /// Makes a list of runs without tiles, over these leaves.
    pub(crate) fn new(alloc: Global, leaves: Cover) -> Runs
        ensures leaves { result.leaves ≡ leaves }
        ensures none { seen result ≡ [] }
        ensures runs { AreRuns result }
    {
        Runs {
            leaves,
            runs: Vec::new(alloc),
            spans: Vec::new(alloc),
            tiles: Vec::new(alloc),
        }
    }

    /// Makes runs from the tiles found by a search. Each tile is a leaf that is not moved.
    pub(crate) fn of(alloc: Global, cover: Cover) -> Result<Runs, NoMemory>
        ensures runs { IfOk result AreRuns }
        ensures same { IfOk result (λ runs. seen runs ≡ cover.found) }
    {
        let count = cover.tiles();
        cover.tiles_law();
        let leaves = cover.closed(alloc);
        let mut tiles = Vec::with_capacity(alloc, count as usize)?;
        push_tiles(&mut tiles, 0, 0, count)?;
        let whole = Run {
            shift: None,
            first: 0,
            depth: 0,
        };
        let mut runs = Vec::new(alloc);
        runs.push(whole)?;
        Ok(Runs {
            leaves,
            runs,
            spans: Vec::new(alloc),
            tiles,
        })
    }

    /// Returns the number of tiles.
    pub(crate) fn len(&self) -> usize
        ensures { result ≡ length (seen self.now) }
    {
        self.tiles.len()
    }

    /// Adds the leaves of a block, moved, with these digits after theirs. Returns false if there are too many
    /// tiles.
    pub(crate) fn push(
        &mut self,
        block: &Block,
        shift: Option<Point>,
        digits: &[Step],
    ) -> Result<bool, NoMemory>
        requires runs { AreRuns self.old }
        requires leaves { CanRun self.old.leaves.found block.now shift digits.now }
        ensures same_leaves { self.new.leaves ≡ self.old.leaves }
        ensures pushed { IfOk result (λ done. IsTrue done
            → IsPushed self.old self.new block.now shift digits.now) }
    {
        let number = self.runs.len();
        if number >= MOST_TILES || self.tiles.len() + block.count as usize > MOST_TILES {
            return Ok(false);
        }
        let first = self.spans.len();
        self.spans.extend_from_slice(digits)?;
        self.runs.push(Run {
            shift,
            first,
            depth: digits.len() as u8,
        })?;
        push_tiles(&mut self.tiles, number as u32, block.first, block.count)?;
        Ok(true)
    }

    /// Returns the motion and the kind of the tile with this number.
    #[inline]
    pub(crate) fn place(&self, number: usize) -> (Motion, u8)
        requires runs { AreRuns self.now }
        requires below { number < length (seen self.now) }
        ensures motion { result.0 ≡ (tile_of (seen self.now) number).motion }
        ensures kind { result.1 ≡ (tile_of (seen self.now) number).kind }
    {
        let tile = &self.tiles[number];
        let run = &self.runs[tile.run as usize];
        let (motion, kind) = self.leaves.place(tile.leaf as usize);
        let moved = Motion {
            turn: motion.turn,
            shift: shifted(&motion.shift, &run.shift),
        };
        (moved, kind)
    }

    /// Returns the tile with this number. The digits of the frame, `above`, follow its own.
    pub(crate) fn lifted(&self, above: &[Step], number: usize) -> PlacedTile
        requires runs { AreRuns self.now }
        requires found { number < length (seen self.now) }
        requires no_deeper { length (tile_of (seen self.now) number).digits ≤ length above.now }
        requires at_most_64 { length above.now ≤ 64 }
        ensures { result ≡ placed_as (map step_of above.now) (tile_of (seen self.now) number) }
    {
        let mut tile = no_tile();
        self.put_lifted(
            above,
            number,
            &mut tile.kind,
            &mut tile.motion,
            &mut tile.addr,
        );
        tile
    }

    /// Replaces a kind, a motion and an address by those of the tile with this number.
    pub(crate) fn put_lifted(
        &self,
        above: &[Step],
        number: usize,
        kind: &mut u8,
        motion: &mut Motion,
        addr: &mut Address,
    )
        requires runs { AreRuns self.now }
        requires found { number < length (seen self.now) }
        requires no_deeper { length (tile_of (seen self.now) number).digits ≤ length above.now }
        requires at_most_64 { length above.now ≤ 64 }
        ensures { record { kind = kind.new; motion = motion.new; addr = addr.new }
            ≡ placed_as (map step_of above.now) (tile_of (seen self.now) number) }
    {
        let tile = &self.tiles[number];
        let run = &self.runs[tile.run as usize];
        let (own, own_kind) = self.leaves.place(tile.leaf as usize);
        *kind = own_kind;
        *motion = Motion {
            turn: own.turn,
            shift: shifted(&own.shift, &run.shift),
        };
        addr.kind = own_kind;
        let fine = self.leaves.digits_of(tile.leaf as usize);
        let middle = span(&self.spans, run.first, run.depth);
        let coarse = behind(above, fine.len() + middle.len());
        put_digits(&mut addr.digits, fine, middle, coarse);
    }
}

/// Appends the tiles of a run.
fn push_tiles(tiles: &mut Vec<RunTile>, run: u32, first: u32, count: u32) -> Result<(), NoMemory>
    requires fits { first + count < 2 ^ 32 }
    ensures { IfOk result (λ _. tiles.new.items ≡ tiles.old.items ++ run_tiles run first count) }
{
    for number in 0..count {
        tiles.push(RunTile {
            run,
            leaf: first + number,
        })?;
    }
    Ok(())
}

/// Returns the digits of a run.
#[inline]
fn span(spans: &[Step], first: usize, depth: u8) -> &[Step]
    requires { first + depth ≤ length spans.now }
    ensures { result.now ≡ take depth (drop first spans.now) }
{
    &spans[first..first + depth as usize]
}

/// Returns the shift of a leaf as part of a run.
#[inline]
fn shifted(shift: &Point, by: &Option<Point>) -> Point
    requires shift_within { IsWithin (2 ^ 24) shift.now }
    requires by_within { IfSome by.now (IsWithin (2 ^ 24)) }
    ensures { result ≡ shifted_by by.now shift.now }
{
    match by {
        Some(by) => moved(shift, by),
        None => *shift,
    }
}

/// Returns the sum of two shifts, coefficient by coefficient.
#[inline]
fn moved(shift: &Point, by: &Point) -> Point
    requires shift_within { IsWithin (2 ^ 24) shift.now }
    requires by_within { IsWithin (2 ^ 24) by.now }
    ensures { result ≡ moved_by by.now shift.now }
{
    Point {
        c: [
            shift.c[0] + by.c[0],
            shift.c[1] + by.c[1],
            shift.c[2] + by.c[2],
            shift.c[3] + by.c[3],
        ],
    }
}
