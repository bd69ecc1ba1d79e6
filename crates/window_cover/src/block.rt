//! A block of leaves.

/// A block of leaves: the number of its first leaf, and its number of leaves.
#[derive(Clone, Copy)]
pub(crate) struct Block {
    pub(crate) first: u32,
    pub(crate) count: u32,
}
