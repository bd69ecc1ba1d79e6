//! The edges that have been crossed from their other sides.
ghost use Rattle.std.specs.Prelude.{◌≡◌, ◌↔◌, ◌<◌, ◌+◌, ◌*◌, ◌^◌, ℕ, true, length, slice_get, slice_set, Some, IsTrue, IfOk};

use std::alloc::Global;
use tile_shape::no_memory::NoMemory;

/// The number of marks of each line: no tile has more edges.
const MARKS: usize = 12;

/// An edge of a line's tile, by the numbers of both.
#[derive(Clone, Copy)]
pub(crate) struct Side {
    pub(crate) line: u32,
    pub(crate) edge: u8,
}

/// A mark for each edge of each line's tile: true if it has been crossed from its other side.
#[derive(Drop)]
pub(crate) struct CrossedEdges {
    pub(crate) marks: Vec<bool>,
}

impl CrossedEdges {
    /// Makes marks for this number of lines, none of them set.
    pub(crate) fn new(alloc: Global, count: usize) -> Result<CrossedEdges, NoMemory>
        requires few { count < 2 ^ 32 }
        ensures count { IfOk result (λ own. length own.marks.items ≡ count * 12) }
        ensures none { IfOk result (λ own. (i : ℕ) → ¬ (slice_get own.marks.items i ≡ Some true)) }
    {
        Ok(CrossedEdges {
            marks: vec![in alloc; false; count * MARKS]?,
        })
    }

    /// Returns true if an edge of a line's tile is marked.
    pub(crate) fn has(&self, side: Side) -> bool
        requires exists { side.line * 12 + side.edge < length self.now.marks.items }
        ensures { IsTrue result ↔ (slice_get self.now.marks.items (side.line * 12 + side.edge) ≡ Some true) }
    {
        self.marks[side.line as usize * MARKS + side.edge as usize]
    }

    /// Marks an edge of a line's tile.
    pub(crate) fn put(&mut self, side: Side)
        requires exists { side.line * 12 + side.edge < length self.old.marks.items }
        ensures { self.new.marks.items ≡ slice_set self.old.marks.items (side.line * 12 + side.edge) true }
    {
        self.marks[side.line as usize * MARKS + side.edge as usize] = true;
    }
}
