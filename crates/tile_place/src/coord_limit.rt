//! A coefficient out of bounds.
use cyclo_points::point::Point;

/// A value has a coefficient above 2^24 in absolute value.
#[derive(Clone, Copy, Debug, PartialEq, Eq)]
pub struct CoordLimit {
    /// The value that is refused.
    pub value: Point,
}
