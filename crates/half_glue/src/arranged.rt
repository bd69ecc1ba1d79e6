//! Puts whole tiles in order, each exactly once.
ghost use Rattle.std.specs.Prelude.{◌≡◌, ◌<◌, ◌++◌, All, length, IfOk};
ghost use Rattle.half_glue.specs.Found.{given_tile};
ghost use Rattle.half_glue.specs.Numbered.{AreFirstKeys, AreKeyed};
ghost use Rattle.half_glue.specs.Arranged.{AreWholesOrdered};
ghost use Rattle.half_glue.specs.Lifted.{CanBeWholes, IsNoDeeper, lifted_to, whole_of, wholes_of};
ghost use Rattle.half_glue.specs.Pairs.{ArePresent};

use crate::covered_order::ordered;
use crate::pairs::{Pair, Pairs};
use crate::whole_tile::WholeTile;
use lazy_walk::frame::Frame;
use std::alloc::Global;
use tile_place::order_key::OrderKey;
use tile_place::placed_tile::PlacedTile;
use tile_shape::no_memory::NoMemory;

/// Makes the whole tiles of pairs, in the order of their first halves. Pairs with the same first half become
/// one whole tile.
pub(crate) fn arranged(
    alloc: Global,
    frame: &Frame,
    tiles: &[PlacedTile],
    made: Pairs,
) -> Result<Vec<WholeTile>, NoMemory>
    requires keyed { AreKeyed (tiles.now ++ made.crossed.items) made.pairs.items }
    requires no_deeper { All (IsNoDeeper frame.now) (tiles.now ++ made.crossed.items) }
    ensures { IfOk result (λ wholes. AreWholesOrdered
        (wholes_of frame.now (tiles.now ++ made.crossed.items) made.pairs.items) wholes.items) }
{
    let keys = keys(alloc, tiles, &made)?;
    let pairs = ordered(alloc, made.pairs.as_slice(), keys)?;
    let made = Pairs {
        pairs,
        crossed: made.crossed,
    };
    wholes(alloc, frame, tiles, &made)
}

/// Returns the keys of the first halves of pairs, in the order of the pairs.
fn keys(alloc: Global, tiles: &[PlacedTile], made: &Pairs) -> Result<Vec<OrderKey>, NoMemory>
    requires { AreKeyed (tiles.now ++ made.now.crossed.items) made.now.pairs.items }
    ensures { IfOk result (λ keys. AreFirstKeys (tiles.now ++ made.now.crossed.items)
        made.now.pairs.items keys.items) }
{
    let count = made.pairs.len();
    let mut keys = Vec::with_capacity(alloc, count)?;
    for number in 0..count {
        let first = tile_of(tiles, made.crossed.as_slice(), made.pairs[number].first);
        keys.push(OrderKey::of(&first.motion, first.kind, number as u32))?;
    }
    Ok(keys)
}

/// Makes the whole tiles of pairs, in their order.
fn wholes(
    alloc: Global,
    frame: &Frame,
    tiles: &[PlacedTile],
    made: &Pairs,
) -> Result<Vec<WholeTile>, NoMemory>
    requires { CanBeWholes frame.now (tiles.now ++ made.now.crossed.items) made.now.pairs.items }
    ensures { IfOk result (λ wholes. wholes.items ≡ wholes_of frame.now
        (tiles.now ++ made.now.crossed.items) made.now.pairs.items) }
{
    let count = made.pairs.len();
    let mut wholes = Vec::with_capacity(alloc, count)?;
    for number in 0..count {
        let pair = made.pairs[number];
        wholes.push(whole(frame, tiles, made.crossed.as_slice(), pair))?;
    }
    Ok(wholes)
}

/// Makes the whole tile of a pair, with each tile lifted to the frame's depth.
fn whole(frame: &Frame, tiles: &[PlacedTile], crossed: &[PlacedTile], pair: Pair) -> WholeTile
    requires present { ArePresent (length (tiles.now ++ crossed.now)) pair }
    requires no_deeper { All (IsNoDeeper frame.now) (tiles.now ++ crossed.now) }
    ensures { result ≡ whole_of frame.now (tiles.now ++ crossed.now) pair }
{
    WholeTile {
        first: lifted(frame, tile_of(tiles, crossed, pair.first)),
        second: match pair.second {
            Some(second) => Some(lifted(frame, tile_of(tiles, crossed, second))),
            None => None,
        },
    }
}

/// Returns a tile lifted to the frame's depth.
fn lifted(frame: &Frame, tile: &PlacedTile) -> PlacedTile
    requires no_deeper { IsNoDeeper frame.now tile.now }
    ensures { result ≡ lifted_to frame.now tile.now }
{
    PlacedTile {
        kind: tile.kind,
        motion: tile.motion,
        addr: frame.lift(&tile.addr),
    }
}

/// Returns the tile with this number. The given tiles come first in the numbering, then the tiles crossed to.
fn tile_of<'a>(tiles: &'a [PlacedTile], crossed: &'a [PlacedTile], number: u32) -> &'a PlacedTile
    requires below { number < length (tiles.now ++ crossed.now) }
    ensures { result.now ≡ given_tile (tiles.now ++ crossed.now) number }
{
    let place = number as usize;
    if place < tiles.len() {
        &tiles[place]
    } else {
        &crossed[place - tiles.len()]
    }
}
