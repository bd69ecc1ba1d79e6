//! A supertile that is moved.
use cyclo_points::motion::Motion;

/// A supertile that is moved.
#[derive(Clone, Copy)]
pub(crate) struct MovedSupertile<'a> {
    /// Its kind.
    pub(crate) kind: u8,
    /// How many times it is inflated.
    pub(crate) depth: u8,
    /// How it is moved.
    pub(crate) at: &'a Motion,
}
