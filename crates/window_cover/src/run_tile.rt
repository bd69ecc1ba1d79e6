//! A tile of a run.

/// A tile of a run: the number of the run, and the number of the leaf.
#[derive(Clone, Copy)]
pub(crate) struct RunTile {
    pub(crate) run: u32,
    pub(crate) leaf: u32,
}
