//! A prototile that is scaled and moved.
use cyclo_points::motion::Motion;
use cyclo_points::point::Point;

/// A prototile that is scaled and moved: a supertile's polygon.
#[derive(Clone, Copy)]
pub(crate) struct InflatedTile<'a> {
    /// Its kind.
    pub(crate) kind: u8,
    /// By what it is multiplied first.
    pub(crate) scale: &'a Point,
    /// How it is moved then.
    pub(crate) at: &'a Motion,
}
