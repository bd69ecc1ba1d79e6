//! The digits of the chair's one kind, which has four uses, and the reference words of the generator.
ghost use Rattle.std.specs.Prelude.{◌≡◌, ◌<◌, length};

use crate::wrong::Wrong;
use rand_core::utils::NextWord;
use rand_pcg::Pcg32;
use seeded_growth::growth::Growth;
use std::alloc::Global;
use tile_shape::no_memory::NoMemory;
use tile_shape::uses::Uses;

/// The reference words of the generator.
static WORDS: [u32; 6] = [
    0xa15c02b7, 0x7b47f409, 0xba1d3330, 0x83d2f293, 0xbfa4784b, 0xcbed606e,
];

/// The first digits of the chair.
static DIGITS: [u8; 6] = [3, 1, 0, 3, 3, 2];

/// The child kinds of the chair: one kind with four children of it.
fn chair(alloc: Global) -> Result<Uses, NoMemory> {
    let mut rows = Vec::new(alloc);
    rows.push([0, 0, 0, 0].to_vec(alloc)?)?;
    Uses::new(alloc, &rows)
}

/// Notes the first digit that is another.
fn note_digits(wrong: &mut Wrong, uses: &Uses)
    requires one_kind { 0 < length uses.now }
{
    let mut growth = Growth::new(42);
    for (row, want) in DIGITS.iter().enumerate() {
        let digit = growth.next_digit(uses, 0);
        wrong.note("child of a digit", row, digit.child == *want);
        wrong.note("parent of a digit", row, digit.parent == 0);
    }
}

/// Notes the first word or digit that is another.
pub fn note_growth(alloc: Global, wrong: &mut Wrong) {
    let mut generator = Pcg32::new(42, 54);
    for (row, want) in WORDS.iter().enumerate() {
        wrong.note("reference word", row, generator.next_word() == *want);
    }
    match chair(alloc) {
        Ok(uses) if uses.kinds() > 0 => note_digits(wrong, &uses),
        _ => wrong.note("chair", 0, false),
    }
}
