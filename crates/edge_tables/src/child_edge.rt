//! An edge of a child.

/// An edge of a child.
#[derive(Clone, Copy, Debug, PartialEq, Eq)]
pub struct ChildEdge {
    /// The number of the child in its parent's list, from 0.
    pub child: u8,
    /// The number of the edge, from 0.
    pub edge: u8,
}
