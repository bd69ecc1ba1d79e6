//! Blocks of words put one after another, equal ones only once.
ghost use Rattle.std.specs.Prelude.{◌≡◌, ◌↔◌, ◌^◌, ◌<◌, ◌≤◌, ℕ, true, List, length, map, OnOk, IfOk, IfSome, IfNone};
ghost use Rattle.std.specs.List.{concat};
ghost use Rattle.theory_addresses.specs.Search.{IsAmong};
ghost use Rattle.transducer_core.specs.Merged.{BlockStands, IsMerged};
ghost use Rattle.transducer_core.specs.Merging.{AreBlocksKept, StandsLast, IsBlockPlaced, ArePlaced, AreShort, AreSmall};
ghost use Rattle.transducer_core.specs.RowBlocks.{blocks_of};

use crate::blocks::Blocks;
use crate::spread::fill_row;
use crate::words::{Which, block_count, write_block};
use edge_tables::kind_rows::KindRows;
use std::alloc::Global;
use tile_shape::no_memory::NoMemory;

/// Blocks in one list: the start of each, by 256 times its row plus its number there, and the words of the
/// distinct ones.
#[derive(Drop)]
pub(crate) struct Merged {
    pub(crate) starts: Vec<u16>,
    pub(crate) words: Vec<u32>,
    pub(crate) count: u16,
}

impl Merged {
    /// Returns the blocks for look-ups.
    pub(crate) fn blocks(&self) -> Blocks<'_>
        ensures starts { result.starts.now ≡ self.now.starts.items }
        ensures words { result.words.now ≡ self.now.words.items }
    {
        Blocks {
            starts: self.starts.as_slice(),
            words: self.words.as_slice(),
        }
    }
}

/// Returns true if two blocks are the same.
#[inline]
fn same_words(a: &[u32], b: &[u32]) -> bool
    ensures { (result ≡ true) ↔ (a.now ≡ b.now) }
{
    a == b
}

/// Returns the position of an earlier block that equals the last one, which has no end yet, or None.
fn find(words: &[u32], ends: &[u16], last: usize) -> Option<u16>
    requires there { (kept : List (List ℕ)) × (block : List ℕ)
        × StandsLast kept block words.now ends.now last }
    requires room { length words.now < 2 ^ 16 }
    ensures stands { IfSome result (λ start. (kept : List (List ℕ)) (block : List ℕ)
        → StandsLast kept block words.now ends.now last → BlockStands (concat kept) start block
        × IsAmong block kept) }
    ensures none { IfNone result ((kept : List (List ℕ)) (block : List ℕ)
        → StandsLast kept block words.now ends.now last → IsAmong block kept → ⊥) }
{
    let mut begin = 0usize;
    for end in ends {
        let end = usize::from(*end);
        if same_words(&words[begin..end], &words[last..]) {
            return Some(begin as u16);
        }
        begin = end;
    }
    None
}

/// Blocks that are kept, in a row, and the end of each.
#[derive(Drop)]
struct Kept {
    words: Vec<u32>,
    ends: Vec<u16>,
}

/// Keeps the last block if no equal one is kept, and returns its position.
fn keep(kept: &mut Kept, last: usize) -> Result<u16, NoMemory>
    requires there { (blocks : List (List ℕ)) × (block : List ℕ)
        × StandsLast blocks block kept.old.words.items kept.old.ends.items last }
    requires room { length kept.old.words.items < 2 ^ 16 }
    ensures { IfOk result (λ start. (blocks : List (List ℕ)) (block : List ℕ)
        → StandsLast blocks block kept.old.words.items kept.old.ends.items last
        → IsBlockPlaced blocks block kept.new.words.items kept.new.ends.items start) }
{
    match find(kept.words.as_slice(), kept.ends.as_slice(), last) {
        Some(start) => {
            kept.words.truncate(last);
            Ok(start)
        }
        None => {
            kept.ends.push(kept.words.len() as u16)?;
            Ok(last as u16)
        }
    }
}

/// Keeps each block of a kind, and appends their positions to the other starts.
fn place_row(
    kept: &mut Kept,
    starts: &mut Vec<u16>,
    row: &KindRows,
    which: Which,
) -> Result<(), NoMemory>
    requires few { length (blocks_of which row.now) ≤ 16 }
    requires short { AreShort (blocks_of which row.now) }
    requires room { length kept.old.words.items ≤ 2 ^ 15 }
    requires kept { (blocks : List (List ℕ)) × AreBlocksKept blocks kept.old.words.items kept.old.ends.items }
    ensures { OnOk result
        ((blocks : List (List ℕ)) → AreBlocksKept blocks kept.old.words.items kept.old.ends.items
        → ArePlaced blocks (blocks_of which row.now) kept.new.words.items kept.new.ends.items
        starts.old.items starts.new.items) }
{
    for number in 0..block_count(row, which) {
        let last = kept.words.len();
        write_block(&mut kept.words, row, which, number)?;
        starts.push(keep(kept, last)?)?;
    }
    Ok(())
}

/// Merges the blocks of all kinds, equal ones only once.
pub(crate) fn merge(alloc: Global, rows: &Vec<KindRows>, which: Which) -> Result<Merged, NoMemory>
    requires small { AreSmall (map (blocks_of which) rows.now.items) }
    ensures { IfOk result (λ merged. IsMerged (map (blocks_of which) rows.now.items) merged.starts.items
        merged.words.items merged.count) }
{
    let mut starts = Vec::with_capacity(alloc, 256 * rows.len())?;
    let mut kept = Kept {
        words: Vec::with_capacity(alloc, 64)?,
        ends: Vec::with_capacity(alloc, 32)?,
    };
    for row in rows {
        place_row(&mut kept, &mut starts, row, which)?;
        fill_row(&mut starts, block_count(row, which))?;
    }
    let Kept { words, ends } = kept;
    let count = ends.len() as u16;
    Ok(Merged {
        starts,
        words,
        count,
    })
}
