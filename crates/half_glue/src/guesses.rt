//! Guesses where the other halves of tiles are.
ghost use Rattle.std.specs.Prelude.{◌≡◌, ◌≤◌, IfSome, IsTrue, length};
ghost use Rattle.tile_place.specs.Keys.{order_numbers};
ghost use Rattle.theory_windows.specs.Limits.{most_tiles};
ghost use Rattle.window_cover.specs.InOrder.{AreInOrder};
ghost use Rattle.window_cover.specs.Numbered.{IsPlacedAt};

use cyclo_points::motion::Motion;
use std::alloc::Global;
use tile_shape::no_memory::NoMemory;
use window_cover::covered_tiles::CoveredTiles;

/// The value for no place.
const NOWHERE: u32 = 0xffff_ffff;

/// The number of shapes that there may be.
const SHAPES: usize = 256;

/// Guesses at the places of other halves. A shape is a turn and a kind. Halves of one shape have other halves
/// of one shape, and both come in the same order.
///
/// So the next half that is wanted is usually the next one of its shape. It is not if one is missing. Each
/// guess is tested before it is used.
#[derive(Drop)]
pub(crate) struct Guesses {
    /// For each place, the next place with the same shape.
    next: Vec<u32>,
    /// The guess for a half, by its shape.
    places: [u32; SHAPES],
}

impl Guesses {
    /// Makes the guesses, which know nothing yet.
    pub(crate) fn new(alloc: Global, tiles: &CoveredTiles) -> Result<Guesses, NoMemory>
        requires few { length tiles.now ≤ most_tiles }
    {
        let count = tiles.len();
        let mut next = vec![in alloc; NOWHERE; count]?;
        let mut last = [NOWHERE; SHAPES];
        for place in 0..count {
            let shape = usize::from(shape_of(&tiles.motion(place), tiles.kind(place)));
            if let Some(slot) = next.get_mut(last[shape] as usize) {
                *slot = place as u32;
            }
            last[shape] = place as u32;
        }
        Ok(Guesses {
            next,
            places: [NOWHERE; SHAPES],
        })
    }

    /// Returns the place of the tile with this motion and kind: the guess, if it is right; otherwise by search
    /// in the order. `shape` is the shape of the half for which it is wanted.
    pub(crate) fn number_of(
        &mut self,
        tiles: &CoveredTiles,
        shape: u8,
        motion: &Motion,
        kind: u8,
    ) -> Option<usize>
        requires in_order { AreInOrder tiles.now }
        ensures found { IfSome result (IsPlacedAt tiles.now motion.now kind) }
    {
        let shape = usize::from(shape);
        let guess = self.places[shape] as usize;
        let place = if is_there(tiles, guess, motion, kind) {
            guess
        } else {
            tiles.number_of(motion, kind)?
        };
        self.places[shape] = match self.next.get(place) {
            Some(next) => *next,
            None => NOWHERE,
        };
        Some(place)
    }
}

/// Returns the shape of a tile with this motion and kind.
pub(crate) fn shape_of(motion: &Motion, kind: u8) -> u8 {
    motion.turn % 16 * 16 + kind % 16
}

/// Returns true only if the tile at a place has this motion and kind.
fn is_there(tiles: &CoveredTiles, place: usize, motion: &Motion, kind: u8) -> bool
    ensures { IsTrue result → IsPlacedAt tiles.now motion.now kind place }
{
    if place >= tiles.len() {
        return false;
    }
    are_alike(&tiles.motion(place), tiles.kind(place), motion, kind)
}

/// Returns true only if two tiles have the same shift, turn and kind.
fn are_alike(own: &Motion, kind: u8, other: &Motion, other_kind: u8) -> bool
    ensures { IsTrue result → order_numbers own.now kind ≡ order_numbers other.now other_kind }
{
    let c = &own.shift.c;
    let d = &other.shift.c;
    if kind != other_kind || own.turn != other.turn {
        return false;
    }
    if c[0] != d[0] || c[1] != d[1] {
        return false;
    }
    c[2] == d[2] && c[3] == d[3]
}
