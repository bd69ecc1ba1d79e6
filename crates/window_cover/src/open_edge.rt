//! An open edge.

/// An open edge: an edge of a tile found that meets the window and has no tile found across it.
#[derive(Clone, Copy, Debug, PartialEq, Eq)]
pub struct OpenEdge {
    /// The number of the tile, from 0, in the order in which tiles were found.
    pub tile: u32,
    /// The number of the edge, from 0.
    pub edge: u8,
}
