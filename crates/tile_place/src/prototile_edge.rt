//! An edge of a prototile.

/// An edge of a prototile: its kind, and the numbers of the vertices at which it begins and ends. The first
/// of them is the number of the edge.
#[derive(Clone, Copy)]
pub(crate) struct PrototileEdge {
    pub(crate) kind: u8,
    pub(crate) start: usize,
    pub(crate) end: usize,
}
