//! Lines by the addresses of their tiles.
ghost use Rattle.std.specs.Prelude.{◌≡◌, ◌<◌, ◌≤◌, ◌+◌, ◌%◌, ◌^◌, ℕ, length, get_or, slice_get, Some, IfSome, IfNone, IfOk, IfErr, OnOk};
ghost use Rattle.tile_shape.specs.Views.{address_of};
ghost use Rattle.list_verify.specs.declared.list_fault.ListFault.TheVariants.{Double};
ghost use Rattle.list_verify.specs.LineIndex as index;
ghost use Rattle.listing_text.specs.declared.entry.Entry.{Entry};
ghost use Rattle.list_verify.specs.Faults.{OrNoRoom};
ghost use Rattle.list_verify.specs.LineIndex.{IsMultiplier, Indexes, HasAddress, NoneAgain, IsAgain, buckets_of, last_in};

use crate::list_fault::ListFault;
use crate::same_address::is_same_address;
use listing_text::entry::Entry;
use std::alloc::Global;
use std::hash::{DefaultHasher, Hasher};
use tile_shape::address::Address;

/// A prime, 2^61 - 1.
const MODULUS: u64 = 2_305_843_009_213_693_951;

/// 2^61.
const BASE: u128 = 2_305_843_009_213_693_952;

/// The number of buckets, and the multiplier of a digest.
#[derive(Clone, Copy)]
pub(crate) struct Buckets {
    count: usize,
    multiplier: u64,
}

/// The last line of each bucket, and for each line the previous one of its bucket.
#[derive(Drop)]
pub(crate) struct LineIndex {
    pub(crate) buckets: Buckets,
    pub(crate) last: Vec<Option<u32>>,
    pub(crate) before: Vec<Option<u32>>,
}

impl LineIndex {
    /// Makes the index of lines by their addresses. Err has the first line that repeats an earlier line's
    /// address. The multiplier decides which bucket a line is in.
    pub(crate) fn new(
        alloc: Global,
        multiplier: u64,
        lines: &[Entry],
    ) -> Result<LineIndex, ListFault>
        requires few { length lines.now < 2 ^ 32 }
        requires below { IsMultiplier multiplier }
        ensures index { IfOk result (λ own. Indexes own lines.now (length lines.now)) }
        ensures distinct { OnOk result (NoneAgain lines.now (length lines.now)) }
        ensures double { IfErr result (OrNoRoom (λ fault. (i : ℕ) × (fault ≡ Double (i + 1))
            × IsAgain lines.now i × NoneAgain lines.now i)) }
    {
        let count = lines.len().max(1);
        let mut index = LineIndex {
            buckets: Buckets { count, multiplier },
            last: vec![in alloc; None; count]?,
            before: Vec::with_capacity(alloc, lines.len())?,
        };
        for line in 0..lines.len() {
            index.add(lines, line)?;
        }
        Ok(index)
    }

    /// Adds a line after the earlier ones, unless one of these has its address.
    fn add(&mut self, lines: &[Entry], line: usize) -> Result<(), ListFault>
        requires index { Indexes self.old lines.now line }
        requires below { line < length lines.now }
        requires few { length lines.now < 2 ^ 32 }
        ensures index { OnOk result (Indexes self.new lines.now (line + 1)) }
        ensures new { OnOk result ((e : Entry) → slice_get lines.now line ≡ Some e → (j : ℕ) → j < line
            → ¬ HasAddress lines.now j (address_of e.address)) }
        ensures double { IfErr result (OrNoRoom (λ fault. (fault ≡ Double (line + 1))
            × IsAgain lines.now line)) }
    {
        let address = &lines[line].address;
        let place = bucket_of(address, self.buckets);
        let first = self.last[place];
        if let Some(_) = self.find_from(first, lines, address) {
            return Err(ListFault::Double {
                line: line as u32 + 1,
            });
        }
        self.before.push(first)?;
        self.last[place] = Some(line as u32);
        Ok(())
    }

    /// Returns the line with an address.
    pub(crate) fn find(&self, lines: &[Entry], address: &Address) -> Option<u32>
        requires index { Indexes self.now lines.now (length lines.now) }
        ensures found { IfSome result (λ i. HasAddress lines.now i (address_of address.now)) }
        ensures none { IfNone result ((i : ℕ) → ¬ HasAddress lines.now i (address_of address.now)) }
    {
        let first = self.last[bucket_of(address, self.buckets)];
        self.find_from(first, lines, address)
    }

    /// Returns the line with an address, in the chain of its bucket, which begins with this line, the last
    /// one.
    fn find_from(&self, first: Option<u32>, lines: &[Entry], address: &Address) -> Option<u32>
        requires index { Indexes self.now lines.now (length self.now.before.items) }
        requires first { first ≡ last_in (buckets_of self.now.buckets lines.now)
            (index.bucket_of self.now.buckets (address_of address.now)) (length self.now.before.items) }
        ensures found { IfSome result (λ i. (i < length self.now.before.items)
            × HasAddress lines.now i (address_of address.now)) }
        ensures none { IfNone result ((i : ℕ) → i < length self.now.before.items
            → ¬ HasAddress lines.now i (address_of address.now)) }
    {
        let mut at = first;
        while let Some(line) = at {
            if is_same_address(&lines[line as usize].address, address) {
                return Some(line);
            }
            at = self.before[line as usize];
        }
        None
    }
}

/// Returns the multiplier for a listing, from a hash of all its bytes. So nobody can choose lines that meet
/// in one bucket before the whole listing is written. Few multipliers are bad, such as 0, 1 and those with a
/// small order.
pub(crate) fn multiplier_of(listing: &[u8]) -> u64
    ensures below { IsMultiplier result }
{
    let mut hasher = DefaultHasher::new();
    hasher.write(listing);
    hasher.finish() % MODULUS
}

/// Returns the multiplier for entries, from a hash of all their addresses.
pub(crate) fn multiplier_of_entries(entries: &[Entry]) -> u64
    ensures below { IsMultiplier result }
{
    let mut hasher = DefaultHasher::new();
    for entry in entries {
        hasher.write(&[entry.address.kind]);
        for digit in entry.address.digits.as_slice() {
            hasher.write(&[digit.child, digit.parent]);
        }
    }
    hasher.finish() % MODULUS
}

/// Returns a number modulo the modulus. Since 2^61 is 1 there, the digits to the base 2^61 can be added.
fn reduced(number: u128) -> u64
    requires below { number < 2 ^ 124 }
    ensures reduced { result ≡ number % 2305843009213693951 }
{
    ((number / BASE) as u64 + (number % BASE) as u64) % MODULUS
}

/// Returns the bucket of an address.
fn bucket_of(address: &Address, buckets: Buckets) -> usize
    requires some { 0 < buckets.count }
    requires multiplier { IsMultiplier buckets.multiplier }
    ensures bucket { result ≡ index.bucket_of buckets (address_of address.now) }
    ensures below { result < buckets.count }
{
    let multiplier = u128::from(buckets.multiplier);
    let mut digest = u64::from(address.kind);
    for step in address.digits.as_slice() {
        let digit = step.child as u64 * 256 + step.parent as u64;
        digest = reduced(u128::from(digest) * multiplier + u128::from(digit));
    }
    (digest % buckets.count as u64) as usize
}
