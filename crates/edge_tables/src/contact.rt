//! What an edge of a child meets.

/// What an edge of a child meets: an edge of another child, or the parent's boundary.
#[derive(Clone, Copy, Debug, PartialEq, Eq)]
pub enum Contact {
    /// The edge is the edge of another child, in the opposite direction.
    Inner {
        /// The number of the other child, from 0.
        child: u8,
        /// The number of its edge, from 0.
        edge: u8,
    },
    /// The edge is a part of an edge of the parent.
    Outer {
        /// The number of the parent's edge, from 0.
        edge: u8,
        /// The number of the part along that edge, from 0.
        part: u8,
    },
}
