//! An edge of a kind.

/// An edge of a kind: one side of a glue edge.
#[derive(Clone, Copy)]
pub(crate) struct KindEdge {
    pub(crate) kind: u8,
    pub(crate) edge: u8,
}
