//! Rows in one list with a fixed stride.
ghost use Rattle.std.specs.Prelude.{◌≡◌, ◌+◌, ◌*◌, ◌^◌, ◌<◌, ◌≤◌, ◌++◌, ℕ, List, length, map, slice_get, Some, OnOk, IfOk};
ghost use Rattle.std.specs.List.{AllByRecursion};
ghost use Rattle.transducer_core.specs.Merged.{AreSpread, AreFilled, last_cell, no_row};

use edge_tables::kind_rows::KindRows;
use std::alloc::Global;
use tile_shape::no_memory::NoMemory;
use tile_shape::step::Step;

/// The filling after a row.
const BLANKS: &[u16; 256] = &[0; 256];

/// The filling after the kinds of a row, which is the last cell of no kind.
const NO_ROWS: &[u32; 256] = &[131072; 256];

/// Returns the position of a number of a row.
#[inline]
pub(crate) fn cell(row: u8, number: u8) -> usize
    ensures { result ≡ 256 * row + number }
{
    usize::from(row) * 256 + usize::from(number)
}

/// Returns the digit whose parent and child have this cell.
#[inline]
pub(crate) fn digit_at(at: usize) -> Step
    requires { at < 2 ^ 16 }
    ensures { 256 * result.parent + result.child ≡ at }
{
    Step {
        child: (at % 256) as u8,
        parent: (at / 256) as u8,
    }
}

/// Fills up the last row of a list, which has this many entries, to 256.
pub(crate) fn fill_row(list: &mut Vec<u16>, count: usize) -> Result<(), NoMemory>
    requires short { count ≤ 256 }
    ensures { OnOk result ((blanks : List ℕ) × (list.new.items ≡ list.old.items ++ blanks)
        × (count + length blanks ≡ 256)) }
{
    let blanks = BLANKS.as_slice();
    list.extend_from_slice(&blanks[count..])?;
    Ok(())
}

/// Fills up the last row of a list of kinds, which has this many entries, to 256.
fn fill_kinds(list: &mut Vec<u32>, count: usize) -> Result<(), NoMemory>
    requires short { count ≤ 256 }
    ensures { OnOk result ((blanks : List ℕ) × (list.new.items ≡ list.old.items ++ blanks)
        × (count + length blanks ≡ 256)
        × ((i x : ℕ) → slice_get blanks i ≡ Some x → x ≡ no_row)) }
{
    let blanks = NO_ROWS.as_slice();
    list.extend_from_slice(&blanks[count..])?;
    Ok(())
}

/// Appends the last cell of each kind's row.
fn push_kinds(list: &mut Vec<u32>, kinds: &Vec<u8>) -> Result<(), NoMemory>
    ensures { OnOk result (list.new.items ≡ list.old.items ++ map last_cell kinds.now.items) }
{
    for kind in kinds {
        list.push(u32::from(*kind) * 256 + 255)?;
    }
    Ok(())
}

/// Returns the last cell of the row of each child's kind, with a row of 256 for each kind. After the children
/// of a kind its row has 131072, which is the last cell of no kind.
pub(crate) fn kind_cells(alloc: Global, rows: &Vec<KindRows>) -> Result<Vec<u32>, NoMemory>
    requires few { length rows.now.items ≤ 16 }
    requires short { AllByRecursion (λ r. length r.children.items ≤ 256) rows.now.items }
    ensures spread { IfOk result (λ flat. AreSpread
        (map (λ r. map last_cell r.children.items) rows.now.items) flat.items) }
    ensures filled { IfOk result (λ flat. AreFilled
        (map (λ r. map last_cell r.children.items) rows.now.items) flat.items) }
{
    let mut flat = Vec::with_capacity(alloc, 256 * rows.len())?;
    for row in rows {
        push_kinds(&mut flat, &row.children)?;
        fill_kinds(&mut flat, row.children.len())?;
    }
    Ok(flat)
}
