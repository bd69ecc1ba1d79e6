//! The range of one coefficient.
ghost use Rattle.std.specs.Prelude.{◌≡◌, ◌^◌, ℤ, ◌+ℤ◌, IfSome};
ghost use Rattle.cyclo_points.specs.Point.{Within};
ghost use Rattle.window_cover.specs.Words.{IsSpan, LiesIn, span_width, offset_in};

/// The greatest coefficient.
const LIMIT: i64 = 1 << 24;

/// The integers from `least` to `greatest`.
#[derive(Clone, Copy)]
pub(crate) struct Span {
    pub(crate) least: i64,
    pub(crate) greatest: i64,
}

impl Span {
    /// Makes the span of one number.
    pub(crate) fn at(value: i64) -> Span
        requires within { Within (2 ^ 24) value }
        ensures span { IsSpan result }
        ensures held { LiesIn result value }
    {
        Span {
            least: value,
            greatest: value,
        }
    }

    /// Returns the span of the same numbers and one more, with all between.
    pub(crate) fn widened(self, value: i64) -> Span
        requires span { IsSpan self }
        requires within { Within (2 ^ 24) value }
        ensures span { IsSpan result }
        ensures held { LiesIn result value }
        ensures kept { (x : ℤ) → LiesIn self x → LiesIn result x }
    {
        if value < self.least {
            Span {
                least: value,
                greatest: self.greatest,
            }
        } else if value > self.greatest {
            Span {
                least: self.least,
                greatest: value,
            }
        } else {
            self
        }
    }

    /// Returns the span of all sums of a number of this span and one of another. Returns None if a sum may be
    /// too large for a coefficient.
    pub(crate) fn moved(&self, other: &Span) -> Option<Span>
        requires span { IsSpan self.now }
        requires other { IsSpan other.now }
        ensures span { IfSome result IsSpan }
        ensures held { IfSome result (λ sums. (x y : ℤ) → LiesIn self.now x → LiesIn other.now y
            → LiesIn sums (x +ℤ y)) }
    {
        let least = self.least + other.least;
        let greatest = self.greatest + other.greatest;
        if least < -LIMIT || greatest > LIMIT {
            return None;
        }
        Some(Span { least, greatest })
    }

    /// Returns the number of integers in the span.
    pub(crate) fn count(&self) -> u64
        requires { IsSpan self.now }
        ensures { result ≡ span_width self.now }
    {
        (self.greatest - self.least + 1) as u64
    }

    /// Returns the place of an integer in the span, from 0.
    pub(crate) fn place(&self, value: i64) -> u64
        requires span { IsSpan self.now }
        requires held { LiesIn self.now value }
        ensures { result ≡ offset_in self.now value }
    {
        (value - self.least) as u64
    }
}
