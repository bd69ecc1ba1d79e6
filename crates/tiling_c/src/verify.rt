//! Whether arrays have the tiles of a window.
ghost use Rattle.std.specs.Prelude.{◌≡◌, ◌↔◌, ◌≤◌, ◌-◌, length, IfOk, IfErr, IsSome, IsTrue, IfSome};
ghost use Rattle.std.specs.List.{All};
ghost use Rattle.theory_addresses.specs.Address.{Fits};
ghost use Rattle.tile_shape.specs.Views.{address_of};
ghost use Rattle.rule_model.specs.Tiling.{tiling_of, children};
ghost use Rattle.listing_text.specs.Limits.{most_lines};
ghost use Rattle.listing_text.specs.Views.{entry_of};
ghost use Rattle.list_verify.specs.FoundLines.{entries_of};
ghost use Rattle.c_values.specs.Statuses.{bad_listing, no_memory};
ghost use Rattle.tiling_c.specs.Verify.{entry_given, entries_given, AreEntries, IsEntry, RefusesEntries, ShowsVerify, fault_no_tile, fault_of, line_told, status_told};

use crate::framed_window::framed_window;
use c_values::plain_address::PlainAddress;
use c_values::plain_frame::PlainFrame;
use c_values::plain_tile::PlainTile;
use c_values::plain_window::PlainWindow;
use c_values::shared_machine::SharedMachine;
use c_values::status::{BAD_LISTING, BAD_WORDS, COORD_LIMIT, DEPTH_LIMIT, NO_MEMORY, OK};
use list_verify::entries::verify_entries;
use list_verify::list_fault::ListFault;
use listing_text::entry::Entry;
use std::alloc::Global;
use tile_place::machine::Machine;

/// The greatest number of entries.
const MOST_ENTRIES: usize = 200_000;

/// The entry is no tile of the rule.
pub const NO_TILE: u8 = 1;

/// The address of the entry is not of the frame.
pub const NOT_OF_FRAME: u8 = 2;

/// The address of the entry is that of an earlier one.
pub const DOUBLE: u8 = 3;

/// A tile that meets the window has no entry.
pub const MISSING: u8 = 4;

/// The tile of the entry has another motion.
pub const WRONG_PLACE: u8 = 5;

/// The tile of the entry does not meet the window.
pub const STRAY: u8 = 6;

/// Why arrays are refused. At BAD_LISTING `fault` is the number of what is wrong, and `index` that of its
/// entry.
#[derive(Clone, Copy)]
pub struct Refusal {
    status: u8,
    fault: u8,
    index: usize,
}

impl Refusal {
    /// Returns the status, and puts the fault and the index if there are any.
    fn tell(&self, fault: &mut u8, index: &mut usize) -> u8
        ensures status { result ≡ self.now.status }
        ensures told { result ≡ bad_listing → (fault.new ≡ self.now.fault) × (index.new ≡ self.now.index) }
        ensures unchanged { ¬ result ≡ bad_listing → (fault.new ≡ fault.old) × (index.new ≡ index.old) }
    {
        if self.status == BAD_LISTING {
            *fault = self.fault;
            *index = self.index;
        }
        self.status
    }
}

/// Returns the refusal of an entry that is no tile.
fn no_tile(index: usize) -> Refusal
    ensures { result ≡ record { status = bad_listing; fault = fault_no_tile; index = index } }
{
    Refusal {
        status: BAD_LISTING,
        fault: NO_TILE,
        index,
    }
}

/// Returns the refusal of entries for which there is no memory.
fn no_memory() -> Refusal
    ensures { result ≡ record { status = no_memory; fault = 0; index = 0 } }
{
    Refusal {
        status: NO_MEMORY,
        fault: 0,
        index: 0,
    }
}

/// Returns a tile and its address as an entry, or None exactly if they are none of the rule.
fn entry(machine: &Machine, tile: &PlainTile, addr: &PlainAddress) -> Option<Entry>
    ensures seen { IfSome result (λ e. entry_of e ≡ entry_given tile.now addr.now) }
    ensures given { IsSome result ↔ IsEntry (tiling_of machine.now) tile.now addr.now }
{
    let address = addr.tile(machine)?;
    if tile.kind != addr.kind {
        return None;
    }
    let motion = tile.motion(machine.checked().order())?;
    Some(Entry { motion, address })
}

/// Returns two arrays as entries. Err at the first that is no tile, or if memory runs out.
fn entries(
    alloc: Global,
    machine: &Machine,
    tiles: &[PlainTile],
    addrs: &[PlainAddress],
) -> Result<Vec<Entry>, Refusal>
    requires same { length addrs.now ≡ length tiles.now }
    ensures given { IfOk result (λ own. entries_of own.items ≡ entries_given tiles.now addrs.now) }
    ensures are_entries { IfOk result (λ _. AreEntries (tiling_of machine.now) tiles.now addrs.now) }
    ensures fit { IfOk result (λ own. All
        (λ e. Fits (children (tiling_of machine.now)) (address_of e.address)) own.items) }
    ensures refused { IfErr result (RefusesEntries (tiling_of machine.now) tiles.now addrs.now) }
{
    let mut entries = match Vec::with_capacity(alloc, tiles.len()) {
        Ok(entries) => entries,
        Err(_) => return Err(no_memory()),
    };
    for index in 0..tiles.len() {
        let Some(entry) = entry(machine, &tiles[index], &addrs[index]) else {
            return Err(no_tile(index));
        };
        match entries.push(entry) {
            Ok(()) => {}
            Err(_) => return Err(no_memory()),
        }
    }
    Ok(entries)
}

/// Returns the status of a fault.
fn status_of(why: &ListFault) -> u8
    ensures { result ≡ status_told why.now }
{
    match why {
        ListFault::DepthLimit { .. } => DEPTH_LIMIT,
        ListFault::CoordLimit { .. } => COORD_LIMIT,
        ListFault::NoMemory => NO_MEMORY,
        _ => BAD_LISTING,
    }
}

/// Returns the number of a fault, or 0 if none comes for two arrays.
fn number_of(why: &ListFault) -> u8
    ensures { result ≡ fault_of why.now }
{
    match why {
        ListFault::NotOfFrame { .. } => NOT_OF_FRAME,
        ListFault::Double { .. } => DOUBLE,
        ListFault::Missing { .. } => MISSING,
        ListFault::WrongPlace { .. } => WRONG_PLACE,
        ListFault::Stray { .. } => STRAY,
        _ => 0,
    }
}

/// Returns the line of a fault, from 1, or 0 if it has none.
fn line_told(why: &ListFault) -> u32
    ensures { result ≡ line_told why.now }
{
    match why {
        ListFault::NotOfFrame { line } => *line,
        ListFault::Double { line } => *line,
        ListFault::WrongPlace { line, .. } => *line,
        ListFault::Stray { line } => *line,
        _ => 0,
    }
}

/// Returns the refusal of a fault.
fn refusal_of(why: &ListFault) -> Refusal
    ensures { result ≡ record {
      status = status_told why.now;
      fault = fault_of why.now;
      index = line_told why.now - 1;
    } }
{
    Refusal {
        status: status_of(why),
        fault: number_of(why),
        index: (line_told(why) as usize).saturating_sub(1),
    }
}

/// Returns true if there are as many addresses as tiles, and not too many.
fn are_lengths(tiles: &[PlainTile], addrs: &[PlainAddress]) -> bool
    ensures { IsTrue result ↔ ((length addrs.now ≡ length tiles.now) × (length tiles.now ≤ most_lines)) }
{
    addrs.len() == tiles.len() && tiles.len() <= MOST_ENTRIES
}

/// Decides whether two arrays have exactly the tiles of a frame that meet a window, each exactly once and
/// with its motion and its address, in any order. At BAD_LISTING `fault` says what is wrong, and `index` with
/// which entry.
#[unsafe(no_mangle)]
pub extern "C" fn tiling_verify(
    alloc: Global,
    t: SharedMachine,
    frame: &PlainFrame,
    window: &PlainWindow,
    tiles: &[PlainTile],
    addrs: &[PlainAddress],
    fault: &mut u8,
    index: &mut usize,
) -> u8
    ensures shown { ShowsVerify (tiling_of t.rule) frame.now window.now tiles.now addrs.now result fault.new
        index.new }
    ensures unchanged { ¬ result ≡ bad_listing → (fault.new ≡ fault.old) × (index.new ≡ index.old) }
{
    let machine = t.get();
    if !are_lengths(tiles, addrs) {
        return BAD_WORDS;
    }
    let mut given = match framed_window(machine, frame, window) {
        Ok(given) => given,
        Err(status) => return status,
    };
    let entries = match entries(alloc, machine, tiles, addrs) {
        Ok(entries) => entries,
        Err(refusal) => return refusal.tell(fault, index),
    };
    match verify_entries(alloc, machine, &mut given.frame, &given.window, entries) {
        Ok(_) => OK,
        Err(why) => refusal_of(&why).tell(fault, index),
    }
}
