//! From the text of a listing to its entries.
ghost use Rattle.std.specs.Prelude.{◌≡◌, ◌⊎◌, ◌↔◌, ℕ, ◌+◌, ◌<◌, ◌≤◌, List, ◌∷◌, map, length, Ok, Err, IfOk, IfErr};
ghost use Rattle.cyclo_points.specs.Text.{blank};
ghost use Rattle.cyclo_points.specs.declared.motion.Motion.{Motion};
ghost use Rattle.std.specs.List.{All};
ghost use Rattle.tile_shape.specs.Accepted.{IsAcceptedAddress};
ghost use Rattle.tile_shape.specs.AddressIn.{address_of_text};
ghost use Rattle.tile_shape.specs.Views.{address_of};
ghost use Rattle.listing_text.specs.declared.listing_fault.ListingFault.{ListingFault as Fault};
ghost use Rattle.listing_text.specs.declared.listing_fault.ListingFault.TheVariants as faults;
ghost use Rattle.listing_text.specs.Limits.{most_lines};
ghost use Rattle.tile_shape.specs.Words.{texts_between};
ghost use Rattle.listing_text.specs.Lines.{lines_in};
ghost use Rattle.listing_text.specs.Listing.{entry_in, entry_of_words, listing_in};
ghost use Rattle.listing_text.specs.Views.{entry_of, IsPut, OrWantsMemory};
ghost use Rattle.listing_text.specs.Words.{listed_behind};

use crate::entry::Entry;
use crate::line::{cut, listed_motion};
use crate::listing_fault::ListingFault;
use memchr::memchr;
use std::alloc::Global;
use tile_shape::address_fault::AddressFault;
use tile_shape::laws::short_numbers_law;
use tile_shape::reading::read_address;
use tile_shape::uses::Uses;

/// The most lines of a listing.
const MOST_LINES: usize = 200_000;

/// Reads the entries of a list, line by line.
///
/// - `uses` is the table that the addresses must fit.
/// - `listing` has lines, each ended by a newline; the last newline may be missing. A line has four fields,
///   with single blanks between. They are a kind and a turn, from 0 to 255; a shift; and the text of an
///   address. The shift is four signed numbers joined by commas, each at most 2^24 in absolute value.
/// - `alloc` provides the memory of the entries.
///
/// # Errors
///
/// `TooLong` for more than 200,000 lines, before anything else. Otherwise the first line that has a fault
/// decides: `BadLine`, then `Address`, then `BadKind`. `NoMemory` only if memory ran out.
pub fn read_listing(alloc: Global, uses: &Uses, listing: &[u8]) -> Result<Vec<Entry>, ListingFault>
    // The entries are those of the lines, in order; a fault is that of the first line that has one.
    ensures read { IfOk result (λ entries. listing_in uses.now listing.now ≡ Ok
        (map entry_of entries.items)) }
    ensures fault { IfErr result (OrWantsMemory (λ fault. listing_in uses.now listing.now ≡ Err fault)) }

    // There is an entry for each line, and its address fits the table.
    ensures lines { IfOk result (λ entries. length entries.items ≡ length (lines_in listing.now)) }
    ensures accepted { IfOk result (λ entries. All
        (λ entry. IsAcceptedAddress uses.now (address_of entry.address)) entries.items) }

    // If the list has a fault, that fault comes, unless memory runs out.
    ensures refused { (fault : Fault) → listing_in uses.now listing.now ≡ Err fault → (result ≡ Err fault)
        ⊎ (result ≡ Err faults.NoMemory) }

    // A list with too many lines is refused even if memory runs out.
    ensures too_long { (result ≡ Err faults.TooLong) ↔ (most_lines < length (lines_in listing.now)) }
{
    let mut entries = Vec::new(alloc);
    let mut rest = listing;
    while !rest.is_empty() {
        let before = entries.len();
        if before == MOST_LINES {
            return Err(ListingFault::TooLong);
        }
        let (line, behind) = cut_line(rest);
        if let Err(fault) = put_line(uses, line, &mut entries) {
            return Err(first_fault(before, rest, fault));
        }
        rest = behind;
    }
    Ok(entries)
}

/// Appends the entry of a line to those of the previous lines.
fn put_line(uses: &Uses, line: &[u8], entries: &mut Vec<Entry>) -> Result<(), ListingFault>
    requires few { length entries.old.items < most_lines }
    ensures put { IfOk result (λ _. IsPut uses.now line.now entries.old.items entries.new.items) }
    ensures fault { IfErr result (OrWantsMemory
        (λ fault. entry_in uses.now (length entries.old.items + 1) line.now ≡ Err fault)) }
{
    // The law that the text of an address has no blank, and what it requires of the table.
    short_numbers_law();
    let _limits = uses.kinds();
    let number = entries.len() as u32 + 1;
    let placed = match listed_motion(line) {
        Ok(placed) => placed,
        Err(place) => {
            return Err(ListingFault::BadLine {
                line: number,
                place,
            });
        }
    };
    let Some(text) = placed.left else {
        return Err(ListingFault::BadLine {
            line: number,
            place: 3,
        });
    };
    match read_address(uses, text) {
        Err(fault) => Err(wrong_end(number, text, fault)),
        Ok(address) => {
            if address.kind != placed.kind {
                return Err(ListingFault::BadKind { line: number });
            }
            entries.push(Entry {
                motion: placed.motion,
                address,
            })?;
            Ok(())
        }
    }
}

/// Returns the fault of a line whose first three fields are well formed and whose rest is not an address.
/// There is no fourth field, or there is a fifth; otherwise it is the fault of the address.
fn wrong_end(line: u32, text: &[u8], fault: AddressFault) -> ListingFault
    ensures { (children : List (List ℕ)) (kind : ℕ) (motion : Motion)
        → address_of_text children text.now ≡ Err fault
        → entry_of_words children line (listed_behind kind motion (texts_between blank text.now)) ≡ Err
        result }
{
    let (word, left) = cut(text, b' ');
    if word.is_empty() {
        return ListingFault::BadLine { line, place: 3 };
    }
    match left {
        Some(_) => ListingFault::BadLine { line, place: 4 },
        None => ListingFault::Address { line, fault },
    }
}

/// Returns the first line, and the text after its newline, which is empty if there is no newline.
fn cut_line(text: &[u8]) -> (&[u8], &[u8])
    requires some { 0 < length text.now }
    ensures line { lines_in text.now ≡ result.0.now ∷ lines_in result.1.now }
    ensures shorter { length result.1.now < length text.now }
{
    match memchr(b'\n', text) {
        Some(place) => (&text[..place], &text[place + 1..]),
        None => (text, &[]),
    }
}

/// Returns the fault of the first line left, unless there are too many lines. `before` lines have been read.
fn first_fault(before: usize, left: &[u8], fault: ListingFault) -> ListingFault
    requires few { before < most_lines }
    ensures too_long { most_lines < before + length (lines_in left.now) → result ≡ faults.TooLong }
    ensures fault { before + length (lines_in left.now) ≤ most_lines → result ≡ fault }
{
    if count_lines(left) > MOST_LINES - before {
        return ListingFault::TooLong;
    }
    fault
}

/// Returns the number of lines.
fn count_lines(text: &[u8]) -> usize
    ensures { result ≡ length (lines_in text.now) }
{
    let mut ended: usize = 0;
    let mut begun = false;
    for byte in text {
        if *byte == b'\n' {
            ended += 1;
            begun = false;
        } else {
            begun = true;
        }
    }
    if begun {
        ended += 1;
    }
    ended
}
