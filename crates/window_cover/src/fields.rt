//! Words by which tiles are put in order.
ghost use Rattle.std.specs.Prelude.{◌≡◌, ◌⊎◌, ℕ, ◌+◌, ◌*◌, ◌^◌, ◌<◌, ◌≤◌, IfSome, IsTrue};
ghost use Rattle.cyclo_points.specs.declared.motion.Motion.{Motion};
ghost use Rattle.cyclo_points.specs.declared.point.Point.{Point};
ghost use Rattle.std.specs.declared.option.Option.{Option};
ghost use Rattle.tile_place.specs.Keys.{FitsKey};
ghost use Rattle.window_cover.specs.Reach.{still_run};
ghost use Rattle.window_cover.specs.Runs.{shifted_by};
ghost use Rattle.window_cover.specs.Words.{AreFields, AreHeld, word_count, tile_word, tile_number};

use crate::span::Span;
use cyclo_points::motion::Motion;

/// The number of turns that a word has room for.
const TURNS: u64 = 16;

/// The number of tiles that a word has room for. A window may not have as many.
const NUMBERS: u64 = 1 << 18;

/// The fields of a word: the four coefficients of the shift, then the turn, the kind, and the number of the
/// tile. The coefficients lie in these spans, and the kind is below `kinds`. Words are ordered like these
/// numbers.
#[derive(Clone, Copy)]
pub(crate) struct Fields {
    a0: Span,
    a1: Span,
    a2: Span,
    a3: Span,
    kinds: u64,
}

impl Fields {
    /// Makes the fields for one tile.
    pub(crate) fn of(motion: &Motion, kind: u8) -> Fields
        requires fits { FitsKey motion.now kind }
        ensures fields { AreFields result }
        ensures held { AreHeld result motion.now kind }
    {
        let c = &motion.shift.c;
        Fields {
            a0: Span::at(c[0]),
            a1: Span::at(c[1]),
            a2: Span::at(c[2]),
            a3: Span::at(c[3]),
            kinds: u64::from(kind) + 1,
        }
    }

    /// Returns fields for the same tiles and one more.
    pub(crate) fn widened(self, motion: &Motion, kind: u8) -> Fields
        requires fields { AreFields self }
        requires fits { FitsKey motion.now kind }
        ensures fields { AreFields result }
        ensures held { AreHeld result motion.now kind }
        ensures kept { (m : Motion) (k : ℕ) → AreHeld self m k → AreHeld result m k }
    {
        let c = &motion.shift.c;
        Fields {
            a0: self.a0.widened(c[0]),
            a1: self.a1.widened(c[1]),
            a2: self.a2.widened(c[2]),
            a3: self.a3.widened(c[3]),
            kinds: larger(self.kinds, u64::from(kind) + 1),
        }
    }

    /// Returns fields for the same tiles, each moved by a shift that has a place in `shifts`. Returns None if
    /// a moved coefficient may be too large.
    pub(crate) fn moved(&self, shifts: &Fields) -> Option<Fields>
        requires fields { AreFields self.now }
        requires shifts { AreFields shifts.now }
        ensures fields { IfSome result AreFields }
        ensures held { IfSome result (λ fields. (m : Motion) (kind : ℕ) (by : Option Point)
            → AreHeld self.now m kind → AreHeld shifts.now (still_run by) 0
            → AreHeld fields (record { turn = m.turn; shift = shifted_by by m.shift }) kind) }
    {
        Some(Fields {
            a0: self.a0.moved(&shifts.a0)?,
            a1: self.a1.moved(&shifts.a1)?,
            a2: self.a2.moved(&shifts.a2)?,
            a3: self.a3.moved(&shifts.a3)?,
            kinds: self.kinds,
        })
    }

    /// Returns true only if all words are below 2^64.
    pub(crate) fn fit(&self) -> bool
        requires fields { AreFields self.now }
        ensures { IsTrue result → word_count self.now < 2 ^ 64 }
    {
        self.words().is_some()
    }

    /// Returns the number of different words, or None if it is not below 2^64.
    fn words(&self) -> Option<u64>
        requires fields { AreFields self.now }
        ensures { IfSome result (λ n. (n ≡ word_count self.now) × (n < 2 ^ 64)) }
    {
        let shifts = self.a0.count().checked_mul(self.a1.count())?;
        let shifts = shifts.checked_mul(self.a2.count())?;
        let shifts = shifts.checked_mul(self.a3.count())?;
        let tiles = shifts.checked_mul(TURNS)?.checked_mul(self.kinds)?;
        tiles.checked_mul(NUMBERS)
    }

    /// Returns the word of a tile.
    pub(crate) fn word(&self, motion: &Motion, kind: u8, number: u32) -> u64
        requires fields { AreFields self.now }
        requires fit { word_count self.now < 2 ^ 64 }
        requires held { AreHeld self.now motion.now kind }
        requires few { number < 2 ^ 18 }
        ensures { result ≡ tile_word self.now motion.now kind number }
    {
        let c = &motion.shift.c;
        let a0 = self.a0.place(c[0]);
        let a1 = joined(a0, self.a1.count(), self.a1.place(c[1]));
        let a2 = joined(a1, self.a2.count(), self.a2.place(c[2]));
        let a3 = joined(a2, self.a3.count(), self.a3.place(c[3]));
        let turned = joined(a3, TURNS, u64::from(motion.turn));
        let tile = joined(turned, self.kinds, u64::from(kind));
        joined(tile, NUMBERS, u64::from(number))
    }
}

/// Appends a field to a number. The field has `count` values.
fn joined(number: u64, count: u64, field: u64) -> u64
    requires { number * count + field < 2 ^ 64 }
    ensures { result ≡ number * count + field }
{
    number * count + field
}

/// The larger of two numbers.
fn larger(a: u64, b: u64) -> u64
    ensures first { a ≤ result }
    ensures second { b ≤ result }
    ensures either { (result ≡ a) ⊎ (result ≡ b) }
{
    if a < b { b } else { a }
}

/// Returns the number of the tile in a word.
pub(crate) fn tile_number(word: u64) -> u32
    ensures { result ≡ tile_number word }
{
    (word % NUMBERS) as u32
}
