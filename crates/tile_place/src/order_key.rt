//! Keys by which tiles are put in order of their places.
ghost use Rattle.std.specs.Prelude.{◌≡◌, ◌<◌, ◌^◌};
ghost use Rattle.cyclo_points.specs.Point.{Within, IsWithin};
ghost use Rattle.tile_place.specs.Keys.{raised_shift, packed_pair, key_of, are_level};

use cyclo_points::motion::Motion;

/// Added to each coefficient of a shift, so that it is not negative.
const RAISE: i64 = 1 << 24;

/// The key of a tile: the four coefficients of its shift, its turn and its kind, packed into two words, and
/// its number.
#[derive(Clone, Copy, Debug, PartialEq, Eq, PartialOrd, Ord)]
pub struct OrderKey {
    /// The first two coefficients.
    pub high: u64,
    /// The others, the turn and the kind.
    pub low: u64,
    /// The number of the tile, from 0.
    pub number: u32,
}

impl OrderKey {
    /// Makes the key of a tile. Keys are ordered by the coefficients of the shift, then turn, then kind, then
    /// number.
    pub fn of(motion: &Motion, kind: u8, number: u32) -> OrderKey
        requires within { IsWithin (2 ^ 24) motion.now.shift }
        requires turn_fits { motion.now.turn < 16 }
        ensures { result ≡ key_of motion.now kind number }
    {
        let c = &motion.shift.c;
        let low = pair(c[2], c[3]);
        OrderKey {
            high: pair(c[0], c[1]),
            low: (low * 16 + u64::from(motion.turn)) * 256 + u64::from(kind),
            number,
        }
    }

    /// Returns true if two keys have the same place and kind.
    pub fn is_level(&self, other: &OrderKey) -> bool
        ensures { result ≡ are_level self.now other.now }
    {
        self.high == other.high && self.low == other.low
    }
}

/// Packs two coefficients of a shift into one number.
fn pair(a: i64, b: i64) -> u64
    requires a_within { Within (2 ^ 24) a }
    requires b_within { Within (2 ^ 24) b }
    ensures value { result ≡ packed_pair a b }
    ensures below { result < 2 ^ 52 }
{
    raised(a) * 67_108_864 + raised(b)
}

/// Returns a coefficient of a shift plus 2^24, which is not negative.
fn raised(coefficient: i64) -> u64
    requires within { Within (2 ^ 24) coefficient }
    ensures value { result ≡ raised_shift coefficient }
    ensures below { result < 2 ^ 26 }
{
    (coefficient + RAISE) as u64
}
