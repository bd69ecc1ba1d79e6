//! The lines that a walk has found.
ghost use Rattle.std.specs.Prelude.{◌≡◌, ◌<◌, ◌+◌, ◌^◌, ℕ, [], ◌∷◌, ◌++◌, true, length, slice_get, slice_set, Some, IfSome, IfNone, IfOk, IfErr, OnOk};
ghost use Rattle.cyclo_points.specs.Point.{IsOf};
ghost use Rattle.rule_model.specs.Tiling.{Tiling};
ghost use Rattle.listing_text.specs.declared.entry.Entry.{Entry as Line};
ghost use Rattle.list_verify.specs.declared.list_fault.ListFault.TheVariants.{WrongPlace};
ghost use Rattle.list_verify.specs.Faults.{OrNoRoom};
ghost use Rattle.list_verify.specs.LookedUp.{HasMarks, KeepsRoom, IsLookedUp, IsNotFound, IsMovedOtherwise};
ghost use Rattle.list_verify.specs.LineIndex.{Indexes};
ghost use Rattle.list_verify.specs.Walk.{HasNone};
ghost use Rattle.list_verify.specs.Walked.{IsFirstUnmarked};

use crate::crossed_edges::CrossedEdges;
use crate::line_index::LineIndex;
use crate::list_fault::ListFault;
use crate::same_motion::is_same_motion;
use cyclo_points::arithmetic::refused;
use listing_text::entry::Entry;
use std::alloc::Global;
use tile_place::placed_tile::PlacedTile;
use tile_shape::no_memory::NoMemory;

/// The numbers of the lines found, in that order, and a mark at each line that is found. It also has the
/// edges of their tiles that have been crossed from their other sides.
#[derive(Drop)]
pub(crate) struct FoundLines {
    pub(crate) lines: Vec<u32>,
    pub(crate) marks: Vec<bool>,
    pub(crate) crossed: CrossedEdges,
}

impl FoundLines {
    /// Begins with this number of lines, none of them found.
    pub(crate) fn new(alloc: Global, count: usize) -> Result<FoundLines, NoMemory>
        requires few { count < 2 ^ 32 }
        ensures { IfOk result (HasNone count) }
    {
        Ok(FoundLines {
            lines: Vec::new(alloc),
            marks: vec![in alloc; false; count]?,
            crossed: CrossedEdges::new(alloc, count)?,
        })
    }

    /// Looks for a tile among the lines, marks its line, and returns the line's number.
    pub(crate) fn look_up(
        &mut self,
        lines: &[Entry],
        index: &LineIndex,
        tile: &PlacedTile,
    ) -> Result<u32, ListFault>
        requires index { Indexes index.now lines.now (length lines.now) }
        requires room { HasMarks lines.now self.old }
        ensures room { KeepsRoom lines.now self.old self.new }
        ensures looked_up { IfOk result (λ line. IsLookedUp self.old self.new lines.now tile.now line) }
        ensures fault { (t : Tiling) → IsOf t.order tile.now.motion.shift
            → IfErr result (OrNoRoom (IsNotFound t lines.now tile.now)) }
    {
        let line = index.find(lines, &tile.addr);
        if let Some(line) = line {
            if self.marks[line as usize] {
                return Ok(line);
            }
        }
        if refused(&tile.motion.shift) {
            return Err(ListFault::CoordLimit {
                value: tile.motion.shift,
            });
        }
        match line {
            None => Err(ListFault::Missing {
                addr: tile.addr.copy(),
            }),
            Some(line) => self.mark(lines, line, tile),
        }
    }

    /// Returns the number of the first line that is not found.
    pub(crate) fn first_unmarked(&self) -> Option<u32>
        requires few { length self.now.marks.items < 2 ^ 32 }
        ensures first { IfSome result (IsFirstUnmarked self.now.marks.items) }
        ensures below { IfSome result (λ i. i < length self.now.marks.items) }
        ensures none { IfNone result ((i : ℕ) → i < length self.now.marks.items
            → slice_get self.now.marks.items i ≡ Some true) }
    {
        for line in 0..self.marks.len() {
            if !self.marks[line] {
                return Some(line as u32);
            }
        }
        None
    }

    /// Marks the line of a tile, if it has the tile's motion.
    fn mark(&mut self, lines: &[Entry], line: u32, tile: &PlacedTile) -> Result<u32, ListFault>
        requires below { line < length lines.now }
        requires room { HasMarks lines.now self.old }
        ensures room { KeepsRoom lines.now self.old self.new }
        ensures same { IfOk result (λ number. number ≡ line) }
        ensures lines { OnOk result (self.new.lines.items ≡ self.old.lines.items ++ line ∷ []) }
        ensures marks { OnOk result (self.new.marks.items ≡ slice_set self.old.marks.items line true) }
        ensures motion { OnOk result ((e : Line) → slice_get lines.now line ≡ Some e
            → e.motion ≡ tile.now.motion) }
        ensures fault { IfErr result (OrNoRoom (λ fault. (fault ≡ WrongPlace (line + 1) tile.now.motion)
            × ((e : Line) → slice_get lines.now line ≡ Some e → (¬ (e.motion ≡ tile.now.motion))
            × IsMovedOtherwise e.motion tile.now.motion))) }
    {
        if !is_same_motion(&lines[line as usize].motion, &tile.motion) {
            return Err(ListFault::WrongPlace {
                line: line + 1,
                motion: tile.motion,
            });
        }
        self.lines.push(line)?;
        self.marks[line as usize] = true;
        Ok(line)
    }
}
