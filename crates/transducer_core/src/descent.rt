//! The way down on the other side of an edge.
ghost use Rattle.std.specs.Prelude.{◌≡◌, ◌+◌, ◌*◌, ◌/◌, ◌%◌, ◌^◌, ◌<◌, ℕ, length, map, Some, IsSome, slice_get};
ghost use Rattle.theory_addresses.specs.Address.{Fits};
ghost use Rattle.theory_addresses.specs.Coherent.{IsCoherent};
ghost use Rattle.theory_addresses.specs.Tables.{child_kinds, type_of};
ghost use Rattle.theory_addresses.specs.Touch.{Touches};
ghost use Rattle.tile_shape.specs.Views.{step_of};
ghost use Rattle.transducer_core.specs.Climbing.{MeetsAt};
ghost use Rattle.transducer_core.specs.Descending.{GoesDown, StartsDown};
ghost use Rattle.transducer_core.specs.Merged.{HasEntry};

use crate::blocks::Blocks;
use crate::climb::Meeting;
use crate::flat_table::FlatTable;
use crate::spread::{cell, digit_at};
use crate::words::part_in;
use edge_tables::steps::Steps;
use std::sync::ledger::Ledger;
use tile_shape::step::Step;

/// An edge of a child on the way down: 256 times the child's kind, and the number of the edge.
#[derive(Clone, Copy)]
pub(crate) struct Side {
    pub(crate) row: usize,
    pub(crate) edge: usize,
}

/// Returns 256 times the kind of the child that has this cell.
#[inline]
fn row_below(kinds: &[u32], at: usize) -> usize
    requires { (row : ℕ) × (slice_get kinds.now at ≡ Some (row + 255)) }
    ensures { slice_get kinds.now at ≡ Some (result + 255) }
{
    kinds[at] as usize - 255
}

/// Goes one level down, to the child's edge that is this part of an edge, counted from across. It writes the
/// digit.
#[inline]
fn fall<L: Ledger>(
    blocks: Blocks<'_>,
    kinds: &[u32],
    side: Side,
    part: u8,
    digit: &mut Step,
    steps: &mut Steps<L>,
) -> Side
    requires { (word : ℕ) × (row : ℕ) × HasEntry blocks.starts.now blocks.words.now (side.row + side.edge)
        part word
        × (slice_get kinds.now (side.row + word % 256) ≡ Some (row + 255))
        × (side.row + word % 256 < 2 ^ 16) }
    ensures down { GoesDown blocks.entry.starts.now blocks.entry.words.now kinds.now side part digit.new
        result }
    ensures one_step { steps.new ≡ steps.old + 1 }
{
    let word = blocks.look_up(side.row + side.edge, usize::from(part), steps);
    let at = side.row + (word % 256) as usize;
    *digit = digit_at(at);
    Side {
        row: row_below(kinds, at),
        edge: (word / 256) as usize,
    }
}

/// Writes the digits from a meeting down along the mirrored parts. Returns the kind of the tile across and its
/// edge.
#[inline(always)]
pub(crate) fn write_down<L: Ledger>(
    tables: &FlatTable,
    digits: &mut [Step],
    meeting: Meeting,
    parts: &[u8],
    steps: &mut Steps<L>,
) -> Side
    requires coherent { IsCoherent tables.now }
    requires met { (kind : ℕ) × (e : ℕ) × StartsDown tables.now
        (record { kind = kind; digits = map step_of digits.old }) e meeting parts.now }
    ensures touches { (kind e : ℕ) → StartsDown tables.now
        (record { kind = kind; digits = map step_of digits.old }) e meeting parts.now
        → Touches tables.now (record { kind = kind; digits = map step_of digits.old }) e
        (record { kind = result.row / 256; digits = map step_of digits.new }) result.edge }
    ensures fits { Fits (child_kinds tables.now)
        (record { kind = result.row / 256; digits = map step_of digits.new }) }
    ensures edge_exists { IsSome (type_of tables.now (result.row / 256) result.edge) }
    ensures a_step_a_level { steps.new ≡ steps.old + meeting.level }
{
    let blocks = tables.parts();
    let kinds = tables.child_kinds();
    let met = part_in(meeting.word);
    let child = met.child;
    let parent = (meeting.at / 256) as u8;
    digits[meeting.level] = Step { child, parent };
    let mut side = Side {
        row: row_below(kinds, cell(parent, child)),
        edge: usize::from(met.edge),
    };
    let mut level = meeting.level;
    if level % 2 == 1 {
        level -= 1;
        side = fall(blocks, kinds, side, parts[level], &mut digits[level], steps);
    }
    while level > 0 {
        side = fall(
            blocks,
            kinds,
            side,
            parts[level - 1],
            &mut digits[level - 1],
            steps,
        );
        side = fall(
            blocks,
            kinds,
            side,
            parts[level - 2],
            &mut digits[level - 2],
            steps,
        );
        level -= 2;
    }
    side
}
