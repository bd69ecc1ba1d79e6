//! The tiles of a window, by their places in the order.
ghost use Rattle.std.specs.Prelude.{◌≡◌, ◌<◌, ℕ, None, length, slice_get, IfSome};
ghost use Rattle.std.specs.Ordering.{int_cmp};
ghost use Rattle.std.specs.Cmp.Lexicographic.{slice_cmp};
ghost use Rattle.tile_place.specs.Keys.{order_numbers};
ghost use Rattle.window_cover.specs.InOrder.{AreInOrder, numbers_placed};
ghost use Rattle.window_cover.specs.Numbered.{IsPlacedAt};

use crate::covered_tiles::CoveredTiles;
use crate::fields::tile_number;
use cyclo_points::motion::Motion;
use std::cmp::Ordering;

impl CoveredTiles {
    /// Returns the kind of the tile at a place in the order.
    #[inline]
    pub fn kind(&self, place: usize) -> u8
        requires below { place < length self.now }
        ensures { IfSome (slice_get self.now place) (λ x. result ≡ x.kind) }
    {
        let number = tile_number(self.words[place]);
        let (_, kind) = self.tiles.place(number as usize);
        kind
    }

    /// Returns the motion of the tile at a place in the order.
    #[inline]
    pub fn motion(&self, place: usize) -> Motion
        requires below { place < length self.now }
        ensures { IfSome (slice_get self.now place) (λ x. result ≡ x.motion) }
    {
        let number = tile_number(self.words[place]);
        let (motion, _) = self.tiles.place(number as usize);
        motion
    }

    /// Returns the place in the order of the tile with this motion and kind, or None exactly if no tile has
    /// them.
    pub fn number_of(&self, motion: &Motion, kind: u8) -> Option<usize>
        requires in_order { AreInOrder self.now }
        ensures found { IfSome result (IsPlacedAt self.now motion.now kind) }
        ensures none { result ≡ None → (place : ℕ) → ¬ IsPlacedAt self.now motion.now kind place }
    {
        let mut first = 0;
        let mut end = self.len();
        while first < end {
            let middle = first + (end - first) / 2;
            match self.compared(middle, motion, kind) {
                Ordering::Less => first = middle + 1,
                Ordering::Equal => return Some(middle),
                Ordering::Greater => end = middle,
            }
        }
        None
    }

    /// Compares the tile at a place in the order with a motion and a kind.
    pub fn compared(&self, place: usize, motion: &Motion, kind: u8) -> Ordering
        requires below { place < length self.now }
        ensures { IfSome (slice_get self.now place)
            (λ x. result ≡ slice_cmp int_cmp (numbers_placed x) (order_numbers motion.now kind)) }
    {
        compared(&self.motion(place), self.kind(place), motion, kind)
    }
}

/// Compares two tiles by shift, then turn, then kind.
fn compared(own: &Motion, kind: u8, other: &Motion, other_kind: u8) -> Ordering
    ensures { result ≡ slice_cmp int_cmp (order_numbers own.now kind) (order_numbers other.now other_kind) }
{
    let c = &own.shift.c;
    let d = &other.shift.c;
    let kinds = i64::from(kind).cmp(&i64::from(other_kind));
    let turns = i64::from(own.turn).cmp(&i64::from(other.turn));
    let turned = turns.then(kinds);
    let last = c[3].cmp(&d[3]).then(turned);
    let third = c[2].cmp(&d[2]).then(last);
    let second = c[1].cmp(&d[1]).then(third);
    c[0].cmp(&d[0]).then(second)
}
