ghost use Rattle.std.specs.Prelude.{◌≡◌};

/// The number a + bθ, a coordinate of a point. θ is √2 in order 8 and the golden ratio in order 10. In orders
/// 4 and 6 coordinates are integers, and b is 0.
#[derive(Clone, Copy, Debug, Default, PartialEq, Eq, PartialOrd, Ord)]
pub struct Real {
    pub a: i128,
    pub b: i128,
}

/// The number of two parts.
pub(crate) fn from_parts(a: i64, b: i64) -> Real
    ensures of_a { result.a ≡ a }
    ensures of_b { result.b ≡ b }
{
    Real {
        a: a as i128,
        b: b as i128,
    }
}
