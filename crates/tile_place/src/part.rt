//! A part of a supertile.
use cyclo_points::motion::Motion;

/// A part of a supertile: a child of it, inflated. It has the number of the child, its kind, and its motion.
#[derive(Clone, Copy)]
pub(crate) struct Part {
    /// The number of the child.
    pub(crate) child: u8,
    /// Its kind.
    pub(crate) kind: u8,
    /// Its motion, followed by that of the supertile.
    pub(crate) motion: Motion,
}
