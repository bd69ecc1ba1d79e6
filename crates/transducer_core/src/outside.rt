//! An edge on the outside of the supertile.

/// The supertile's own edge on which an edge lies, and on which part of it. The part is 0 if the tile is the
/// supertile.
#[derive(Clone, Copy, Debug, PartialEq, Eq)]
pub struct Outside {
    /// The number of the supertile's edge.
    pub edge: u8,
    /// The number of the part of that edge, counted along it from 0.
    pub part: u8,
}
