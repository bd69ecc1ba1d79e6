//! Puts the whole tiles of a window in order.
ghost use Rattle.std.specs.Prelude.{◌≡◌, ◌+◌, ◌<◌, ◌≤◌, length, IfOk};
ghost use Rattle.tile_place.specs.Keys.{order_numbers};
ghost use Rattle.half_glue.specs.NumberedTiles.{tiles_in};
ghost use Rattle.half_glue.specs.Merged.{AreMerged, CanBeMerged, IsMerging, IsPlaceAmong};

use crate::numbered_tiles::NumberedTiles;
use crate::pairs::Pair;
use cyclo_points::motion::Motion;
use std::alloc::Global;
use std::cmp::Ordering;
use tile_shape::no_memory::NoMemory;

/// Two lists of pairs to be merged, both in the order of their first tiles.
#[derive(Clone, Copy)]
pub(crate) struct Merge<'a> {
    pub(crate) halves: NumberedTiles<'a>,
    /// Pairs that begin with tiles of the window.
    pub(crate) inner: &'a [Pair],
    /// Other pairs. One that begins with the same tile as a pair of `inner` is left out.
    pub(crate) outer: &'a [Pair],
}

impl<'a> Merge<'a> {
    /// Returns the pairs of both lists in order.
    pub(crate) fn merged(&self, alloc: Global) -> Result<Vec<Pair>, NoMemory>
        requires { CanBeMerged self.now }
        ensures { IfOk result (λ pairs. AreMerged (tiles_in self.now.halves) self.now.inner.now
            self.now.outer.now pairs.items) }
    {
        let count = self.inner.len();
        let mut pairs = Vec::with_capacity(alloc, count)?;
        let mut done = 0;
        for next in 0..self.outer.len() {
            done = self.put_next(&mut pairs, done, next)?;
        }
        pairs.extend_from_slice(&self.inner[done..])?;
        Ok(pairs)
    }

    /// Appends the pairs of `inner` that are left and do not come behind the next pair of `outer`, then that
    /// one, unless the last of them begins with the same tile. Returns the number of pairs of `inner` that
    /// are done.
    fn put_next(&self, pairs: &mut Vec<Pair>, done: usize, next: usize) -> Result<usize, NoMemory>
        requires lists { CanBeMerged self.now }
        requires merging { IsMerging (tiles_in self.now.halves) self.now.inner.now self.now.outer.now done
            next pairs.old.items }
        requires one_more { next < length self.now.outer.now }
        ensures { IfOk result (λ after. IsMerging (tiles_in self.now.halves) self.now.inner.now
            self.now.outer.now after (next + 1) pairs.new.items) }
    {
        let pair = self.outer[next];
        let (motion, kind) = self.halves.place(pair.first);
        match self.place_among(done, &motion, kind) {
            Ok(same) => {
                pairs.extend_from_slice(&self.inner[done..same + 1])?;
                Ok(same + 1)
            }
            Err(end) => {
                pairs.extend_from_slice(&self.inner[done..end])?;
                pairs.push(pair)?;
                Ok(end)
            }
        }
    }

    /// Finds the pair whose first tile has this motion and kind, among the pairs of `inner` from a number on.
    /// As an error, returns the place where it would stand.
    fn place_among(&self, from: usize, motion: &Motion, kind: u8) -> Result<usize, usize>
        requires lists { CanBeMerged self.now }
        requires within { from ≤ length self.now.inner.now }
        ensures { IsPlaceAmong self.now.halves.tiles.now self.now.inner.now from
            (order_numbers motion.now kind) result }
    {
        let mut first = from;
        let mut end = self.inner.len();
        while first < end {
            let middle = first + (end - first) / 2;
            let pair = self.inner[middle];
            let place = pair.first as usize;
            match self.halves.tiles.compared(place, motion, kind) {
                Ordering::Less => first = middle + 1,
                Ordering::Equal => return Ok(middle),
                Ordering::Greater => end = middle,
            }
        }
        Err(first)
    }
}
