//! Looks up tiles by their places.
ghost use Rattle.std.specs.Prelude.{◌≡◌, ◌<◌, ◌^◌, ℕ, None, IfOk, IfSome};
ghost use Rattle.std.specs.List.{Contains};
ghost use Rattle.std.specs.List.Sorted.{IsPermutation, IsSorted};
ghost use Rattle.cyclo_points.specs.Point.{IsWithin};
ghost use Rattle.tile_place.specs.Keys.{key_of};
ghost use Rattle.half_glue.specs.Keys.{own_keys, whole_order};
ghost use Rattle.half_glue.specs.Numbered.{HaveKeys};

use cyclo_points::motion::Motion;
use std::alloc::Global;
use tile_place::order_key::OrderKey;
use tile_place::placed_tile::PlacedTile;
use tile_shape::no_memory::NoMemory;

/// Returns the keys of tiles, sorted.
pub(crate) fn sorted_keys(alloc: Global, tiles: &[PlacedTile]) -> Result<Vec<OrderKey>, NoMemory>
    requires { HaveKeys tiles.now }
    ensures same { IfOk result (λ keys. IsPermutation (own_keys tiles.now) keys.items) }
    ensures sorted { IfOk result (λ keys. IsSorted whole_order keys.items) }
{
    let mut keys = keys(alloc, tiles)?;
    keys.sort_unstable();
    Ok(keys)
}

/// Returns the keys of tiles, in the order of the tiles.
fn keys(alloc: Global, tiles: &[PlacedTile]) -> Result<Vec<OrderKey>, NoMemory>
    requires { HaveKeys tiles.now }
    ensures { IfOk result (λ keys. keys.items ≡ own_keys tiles.now) }
{
    let count = tiles.len();
    let mut keys = Vec::with_capacity(alloc, count)?;
    for number in 0..count {
        let tile = &tiles[number];
        keys.push(OrderKey::of(&tile.motion, tile.kind, number as u32))?;
    }
    Ok(keys)
}

/// Returns the number of a tile with this kind and place, from sorted keys, or None if there is none.
pub(crate) fn number_of(keys: &[OrderKey], motion: &Motion, kind: u8) -> Option<u32>
    requires within { IsWithin (2 ^ 24) motion.now.shift }
    requires turn_fits { motion.now.turn < 16 }
    requires sorted { IsSorted whole_order keys.now }
    ensures found { IfSome result (λ number. Contains keys.now (key_of motion.now kind number)) }
    ensures none { result ≡ None → (number : ℕ) → ¬ Contains keys.now (key_of motion.now kind number) }
{
    let sought = OrderKey::of(motion, kind, 0);
    let place = match keys.binary_search(&sought) {
        Ok(place) => place,
        Err(place) => place,
    };
    let key = keys.get(place)?;
    if key.is_level(&sought) {
        Some(key.number)
    } else {
        None
    }
}
