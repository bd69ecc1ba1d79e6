//! A point, by its coefficients.
use std::fmt;

/// The point a0 + a1 ζ + a2 ζ² + a3 ζ³ of the ring Z[ζ] of an order. `c` has the coefficients, a0 first. In
/// orders 4 and 6 the last two are 0. A point is printed as its four coefficients, decimal, joined by commas.
#[derive(Clone, Copy, Debug, Default, PartialEq, Eq, PartialOrd, Ord)]
pub struct Point {
    pub c: [i64; 4],
}

impl fmt::Display for Point {
    ghost use Rattle.std.specs.Prelude.{Some};
    ghost use Rattle.cyclo_points.specs.Text.{point_text};

    ghost output = { λ p. Some (point_text p) };

    fn fmt<W: fmt::Write>(&self, f: &mut fmt::Formatter<W>) -> fmt::Result {
        let a0 = self.c[0];
        let a1 = self.c[1];
        let a2 = self.c[2];
        let a3 = self.c[3];
        write!(f, "{a0},{a1},{a2},{a3}")
    }
}
