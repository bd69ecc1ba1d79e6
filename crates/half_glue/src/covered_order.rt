//! Puts pairs of tiles in order, each exactly once.
ghost use Rattle.std.specs.Prelude.{◌≡◌, ◌<◌, List, length, IfOk};
ghost use Rattle.theory_addresses.specs.Search.{chosen_below};
ghost use Rattle.tile_place.specs.declared.placed_tile.PlacedTile as placed;
ghost use Rattle.half_glue.specs.Arranged.{AreOrdered};
ghost use Rattle.half_glue.specs.NumberedTiles.{tiles_in};
ghost use Rattle.half_glue.specs.Keys.{is_new_key, pair_at};
ghost use Rattle.half_glue.specs.Numbered.{AreFirstKeys, AreKeyed, NamePairs};

use crate::numbered_tiles::NumberedTiles;
use crate::pairs::Pair;
use std::alloc::Global;
use tile_place::order_key::OrderKey;
use tile_shape::no_memory::NoMemory;

/// Returns the keys of the first halves of pairs, in the order of the pairs.
pub(crate) fn pair_keys(
    alloc: Global,
    halves: &NumberedTiles,
    pairs: &[Pair],
) -> Result<Vec<OrderKey>, NoMemory>
    requires { AreKeyed (tiles_in halves.now) pairs.now }
    ensures { IfOk result (λ keys. AreFirstKeys (tiles_in halves.now) pairs.now keys.items) }
{
    let count = pairs.len();
    let mut keys = Vec::with_capacity(alloc, count)?;
    for number in 0..count {
        let pair = &pairs[number];
        keys.push(halves.key(pair.first, number as u32))?;
    }
    Ok(keys)
}

/// Returns the pairs in the order of their first halves, by the keys of these. Pairs with the same first half
/// become one.
pub(crate) fn ordered(
    alloc: Global,
    pairs: &[Pair],
    keys: Vec<OrderKey>,
) -> Result<Vec<Pair>, NoMemory>
    requires { NamePairs pairs.now keys.items }
    ensures { (tiles : List placed.PlacedTile) → AreKeyed tiles pairs.now
        → AreFirstKeys tiles pairs.now keys.items
        → IfOk result (λ ordered. AreOrdered tiles pairs.now ordered.items) }
{
    let mut keys = keys;
    keys.sort_unstable();
    picked(alloc, pairs, keys.as_slice())
}

/// Returns the pairs of those keys whose place and kind differ from those of the key before.
fn picked(alloc: Global, pairs: &[Pair], keys: &[OrderKey]) -> Result<Vec<Pair>, NoMemory>
    requires keyed { NamePairs pairs.now keys.now }
    ensures { IfOk result (λ picked. picked.items ≡ chosen_below (is_new_key keys.now)
        (pair_at pairs.now keys.now) (length keys.now)) }
{
    let count = keys.len();
    let mut picked = Vec::with_capacity(alloc, count)?;
    for place in 0..count {
        if is_new(keys, place) {
            let number = keys[place].number;
            let pair = &pairs[number as usize];
            picked.push(*pair)?;
        }
    }
    Ok(picked)
}

/// Returns true if the key at `place` differs in place or kind from the key before, or has none before it.
fn is_new(keys: &[OrderKey], place: usize) -> bool
    requires below { place < length keys.now }
    ensures { result ≡ is_new_key keys.now place }
{
    if place == 0 {
        return true;
    }
    let key = keys[place];
    let before = keys[place - 1];
    !key.is_level(&before)
}
