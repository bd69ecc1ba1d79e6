//! Keys of edges: their two ends.
ghost use Rattle.std.specs.Prelude.{◌≡◌, ◌^◌};
ghost use Rattle.cyclo_points.specs.Point.{Within, IsWithin};
ghost use Rattle.window_cover.specs.Packed.{word_of, ends_of};
ghost use Rattle.window_cover.specs.NewEdges.{reversed};

use cyclo_points::point::Point;

/// Added to each coefficient, so that it is not negative.
const RAISE: i64 = 1 << 31;

/// The value of 1 in the upper half of a word.
const UPPER: u64 = 1 << 32;

/// The start and the end of an edge. Each is two words, and each word has two coefficients.
#[derive(Clone, Copy, PartialEq, Eq, Hash)]
pub(crate) struct Ends {
    pub(crate) start_low: u64,
    pub(crate) start_high: u64,
    pub(crate) end_low: u64,
    pub(crate) end_high: u64,
}

impl Ends {
    /// Makes the ends of the edge from `start` to `end`.
    pub(crate) fn of(start: &Point, end: &Point) -> Ends
        requires start_within { IsWithin (2 ^ 25) start.now }
        requires end_within { IsWithin (2 ^ 25) end.now }
        ensures { result ≡ ends_of start.now end.now }
    {
        Ends {
            start_low: word(start.c[0], start.c[1]),
            start_high: word(start.c[2], start.c[3]),
            end_low: word(end.c[0], end.c[1]),
            end_high: word(end.c[2], end.c[3]),
        }
    }

    /// Returns the ends of the same edge in the opposite direction.
    pub(crate) fn reversed(&self) -> Ends
        ensures { result ≡ reversed self.now }
    {
        Ends {
            start_low: self.end_low,
            start_high: self.end_high,
            end_low: self.start_low,
            end_high: self.start_high,
        }
    }
}

/// Packs two coefficients into a word.
fn word(a: i64, b: i64) -> u64
    requires a_within { Within (2 ^ 25) a }
    requires b_within { Within (2 ^ 25) b }
    ensures { result ≡ word_of a b }
{
    (a + RAISE) as u64 * UPPER + (b + RAISE) as u64
}
