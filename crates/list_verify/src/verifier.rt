//! What decides lists of the tiles of one window.
use plane_geom::window::Window;
use std::alloc::Global;
use tile_place::machine::Machine;

/// Decides whether lists are exactly the tiles of a machine's rule that meet a window. It takes its memory
/// from `alloc`.
#[derive(Clone, Copy)]
pub(crate) struct Verifier<'a> {
    pub(crate) alloc: Global,
    pub(crate) machine: &'a Machine,
    pub(crate) window: &'a Window,
}
