//! Pairs of halves.
ghost use Rattle.std.specs.Prelude.{◌≡◌, nat_lt, OnOk};
ghost use Rattle.half_glue.specs.Numbered.{CanBeAdded, IsAdded};
ghost use Rattle.half_glue.specs.Pairs.{halves_of};

use crate::half::Found;
use tile_place::placed_tile::PlacedTile;
use tile_shape::no_memory::NoMemory;
use window_cover::covered_tiles::CoveredTiles;

/// A whole tile, by the numbers of its tiles. The given tiles come first in the numbering, then the tiles
/// crossed to.
#[derive(Clone, Copy)]
pub(crate) struct Pair {
    /// The single tile, or the half with the lesser kind.
    pub(crate) first: u32,
    /// The other half, if there is one.
    pub(crate) second: Option<u32>,
}

/// Whole tiles, and the tiles crossed to.
#[derive(Drop)]
pub(crate) struct Pairs {
    pub(crate) pairs: Vec<Pair>,
    pub(crate) crossed: Vec<PlacedTile>,
}

/// Adds the whole tile of a given tile. If both halves are given, only the half with the lesser kind adds it.
pub(crate) fn put(
    made: &mut Pairs,
    tiles: &[PlacedTile],
    number: usize,
    found: Found,
) -> Result<(), NoMemory>
    requires { CanBeAdded tiles.now made.old number found }
    ensures { OnOk result (IsAdded tiles.now number found made.old made.new) }
{
    let own = number as u32;
    match found {
        Found::Alone => made.pairs.push(Pair {
            first: own,
            second: None,
        })?,
        Found::Given(other) => {
            if tiles[number].kind < tiles[other as usize].kind {
                made.pairs.push(Pair {
                    first: own,
                    second: Some(other),
                })?;
            }
        }
        Found::Crossed(other) => {
            let its = (tiles.len() + made.crossed.len()) as u32;
            let pair = pair_of(tiles[number].kind, own, other.kind, its);
            made.pairs.push(pair)?;
            made.crossed.push(other)?;
        }
    }
    Ok(())
}

/// Like [`put`], for the tiles of a window.
pub(crate) fn put_covered(
    made: &mut Pairs,
    tiles: &CoveredTiles,
    number: usize,
    found: Found,
) -> Result<(), NoMemory>
    requires { CanBeAdded tiles.now made.old number found }
    ensures { OnOk result (IsAdded tiles.now number found made.old made.new) }
{
    let own = number as u32;
    let kind = tiles.kind(number);
    match found {
        Found::Alone => made.pairs.push(Pair {
            first: own,
            second: None,
        })?,
        Found::Given(other) => {
            let other_kind = tiles.kind(other as usize);
            if is_less(kind, other_kind) {
                made.pairs.push(Pair {
                    first: own,
                    second: Some(other),
                })?;
            }
        }
        Found::Crossed(other) => {
            let count = tiles.len();
            let crossed = made.crossed.len();
            let both = pair_of(kind, own, other.kind, (count + crossed) as u32);
            made.pairs.push(both)?;
            made.crossed.push(other)?;
        }
    }
    Ok(())
}

/// Returns true if `kind` is less than `other`.
pub(crate) fn is_less(kind: u8, other: u8) -> bool
    ensures { result ≡ nat_lt kind other }
{
    kind < other
}

/// Makes a pair of two halves, with the lesser kind first.
fn pair_of(kind: u8, number: u32, other_kind: u8, other: u32) -> Pair
    ensures { result ≡ halves_of kind number other_kind other }
{
    if kind < other_kind {
        Pair {
            first: number,
            second: Some(other),
        }
    } else {
        Pair {
            first: other,
            second: Some(number),
        }
    }
}
