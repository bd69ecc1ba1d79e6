//! The leaves of supertiles. Each block of leaves is made once.
ghost use Rattle.std.specs.Prelude.{◌≡◌, ◌<◌, ◌≤◌, [], length, IfOk, IfSome, IsTrue};
ghost use Rattle.cyclo_points.specs.Order.{points_of};
ghost use Rattle.rule_model.specs.Views.{rule_of};
ghost use Rattle.window_descent.specs.Rows.{AreRows, levels_of, row_place};
ghost use Rattle.window_cover.specs.Blocks.{AreBlocks, IsBlockOf, AreNear};
ghost use Rattle.window_cover.specs.Windows.{IsWindow};

use crate::block::Block;
use crate::cover::Cover;
use cyclo_points::motion::Motion;
use cyclo_points::point::Point;
use plane_geom::window::Window;
use std::alloc::Global;
use tile_place::machine::Machine;
use tile_shape::no_memory::NoMemory;
use tile_shape::step::Step;
use window_descent::part::Part;
use window_descent::rows::Rows;

/// The greatest number of leaves of a block.
const MOST_LEAVES: usize = 100;

/// The number of places for blocks: one for each level from 0 to 6, kind and turn.
const PLACES: usize = 7 * 256;

/// The tiles of supertiles, as blocks of leaves: one block for each level up to a height, each kind and each
/// turn. A block is made when it is first needed.
#[derive(Drop)]
pub(crate) struct Blocks {
    /// The highest level of a block.
    pub(crate) height: u8,
    /// The block of each level, kind and turn, if it is made.
    blocks: Vec<Option<Block>>,
}

impl Blocks {
    /// Makes the index for a window, without any block. Its height is the highest level at which no block has
    /// too many leaves for the window.
    pub(crate) fn new(alloc: Global, machine: &Machine, window: &Window) -> Result<Blocks, NoMemory>
        ensures { IfOk result (AreBlocks machine.now []) }
    {
        Ok(Blocks {
            height: height_for(most_children(machine), most_leaves(window)),
            blocks: vec![in alloc; None; PLACES]?,
        })
    }

    /// Returns the block of a level, a kind and a turn, and first adds its leaves if needed. Returns None if
    /// a value is refused or a leaf is too far from the origin.
    pub(crate) fn block(
        &mut self,
        machine: &Machine,
        rows: &mut Rows,
        leaves: &mut Cover,
        level: u8,
        kind: u8,
        turn: u8,
    ) -> Result<Option<Block>, NoMemory>
        requires rows { AreRows machine.now rows.old }
        requires level_exists { level < levels_of rows.old }
        requires low { level ≤ 6 }
        requires kind_exists { kind < length (rule_of machine.now).kinds }
        requires turn_below { turn < (points_of machine.now.order).order }
        requires window { IsWindow leaves.old.window }
        requires blocks { AreBlocks machine.now leaves.old.found self.old }
        ensures { IfOk result (λ made. IfSome made
            (IsBlockOf machine.now rows.old rows.new leaves.old leaves.new self.new level kind turn)) }
    {
        let _usable = machine.checked();
        match self.blocks[place(level, kind, turn)] {
            Some(block) => Ok(Some(block)),
            None => self.make(machine, rows, leaves, level, kind, turn),
        }
    }

    /// Makes the block of a level, a kind and a turn.
    #[cold]
    #[inline(never)]
    fn make(
        &mut self,
        machine: &Machine,
        rows: &mut Rows,
        leaves: &mut Cover,
        level: u8,
        kind: u8,
        turn: u8,
    ) -> Result<Option<Block>, NoMemory>
        requires rows { AreRows machine.now rows.old }
        requires level_exists { level < levels_of rows.old }
        requires low { level ≤ 6 }
        requires kind_exists { kind < length (rule_of machine.now).kinds }
        requires turn_below { turn < (points_of machine.now.order).order }
        requires window { IsWindow leaves.old.window }
        requires blocks { AreBlocks machine.now leaves.old.found self.old }
        ensures { IfOk result (λ made. IfSome made
            (IsBlockOf machine.now rows.old rows.new leaves.old leaves.new self.new level kind turn)) }
    {
        let first = leaves.tiles();
        let part = Part {
            kind,
            motion: Motion {
                turn,
                shift: Point { c: [0, 0, 0, 0] },
            },
        };
        let mut path = [Step {
            child: 0,
            parent: 0,
        }; 8];
        if !leaves.take_all(machine, rows, &mut path[..level as usize], level, &part)? {
            return Ok(None);
        }
        let end = leaves.tiles();
        if end < first || !are_near(leaves, first, end, level) {
            return Ok(None);
        }
        let block = Block {
            first,
            count: end - first,
        };
        let _usable = machine.checked();
        self.blocks[place(level, kind, turn)] = Some(block);
        Ok(Some(block))
    }
}

/// Returns true only if the leaves from `first` to before `end` are near the origin, and none has more than
/// `depth` digits.
fn are_near(leaves: &Cover, first: u32, end: u32, depth: u8) -> bool
    requires there { end ≤ length leaves.now.found }
    ensures { IsTrue result → AreNear leaves.now.found first end depth }
{
    for number in first..end {
        if !leaves.is_near(number as usize, depth) {
            return false;
        }
    }
    true
}

/// Returns the highest level, at most 6, at which no supertile has more than `most` tiles. It is computed from
/// the greatest number of children.
fn height_for(most_children: usize, most: usize) -> u8
    ensures { result ≤ 6 }
{
    let mut tiles: usize = 1;
    for height in 0..6 {
        tiles = tiles.saturating_mul(most_children);
        if tiles > most {
            return height;
        }
    }
    6
}

/// Returns the greatest number of leaves of a block that serves a window. A small window has few tiles that
/// could share the leaves of a large block.
fn most_leaves(window: &Window) -> usize {
    let extents = u32::from(window.w) + u32::from(window.h);
    (extents as usize / 4).min(MOST_LEAVES)
}

/// Returns the greatest number of children that a kind has.
fn most_children(machine: &Machine) -> usize {
    let rule = machine.checked().rule();
    let mut most = 0;
    for kind in 0..rule.kind_count() {
        most = most.max(rule.child_count(kind));
    }
    most
}

/// Returns the place in the index of blocks for a level, a kind and a turn.
fn place(level: u8, kind: u8, turn: u8) -> usize
    ensures { result ≡ row_place level kind turn }
{
    (usize::from(level) * 16 + usize::from(kind)) * 16 + usize::from(turn)
}
