//! Points with small coefficients.
ghost use Rattle.std.specs.Prelude.{◌≡◌, ◌^◌};
ghost use Rattle.cyclo_points.specs.Point.{IsWithin};
ghost use Rattle.tile_place.specs.TurnedVertices.{widened};

use cyclo_points::point::Point;

/// A point with small coefficients, in a quarter of the memory.
#[derive(Clone, Copy)]
pub(crate) struct SmallPoint {
    pub(crate) c: [i16; 4],
}

impl SmallPoint {
    /// Makes it from a point with small coefficients.
    pub(crate) fn of(p: &Point) -> SmallPoint
        requires { IsWithin (2 ^ 7) p.now }
        ensures { widened result ≡ p.now }
    {
        SmallPoint {
            c: [p.c[0] as i16, p.c[1] as i16, p.c[2] as i16, p.c[3] as i16],
        }
    }

    /// Returns the point.
    pub(crate) fn widened(&self) -> Point
        ensures { result ≡ widened self.now }
    {
        Point {
            c: [
                i64::from(self.c[0]),
                i64::from(self.c[1]),
                i64::from(self.c[2]),
                i64::from(self.c[3]),
            ],
        }
    }
}
