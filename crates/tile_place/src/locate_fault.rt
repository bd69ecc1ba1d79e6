//! Why no tile is found for a point.
use cyclo_points::point::Point;

/// Why no tile is found for a point.
#[derive(Clone, Copy, Debug, PartialEq, Eq)]
pub enum LocateFault {
    /// The supertile does not hold the point.
    NotInside,
    /// A value on the way has a coefficient above 2^24 in absolute value.
    CoordLimit {
        /// The first value that has one.
        value: Point,
    },
}
