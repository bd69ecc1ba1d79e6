//! The tiles around a vertex, as plain numbers.

use crate::plain_address::PlainAddress;
use crate::plain_tile::PlainTile;

/// The tiles around a vertex, `count` of them, in turning order from the base. `number` of each is its own
/// number for the vertex. Its address in the frame has the same index in `addrs`. Entries after them are
/// unchanged.
#[repr(C)]
#[derive(Clone, Copy)]
pub struct PlainVertexStar {
    pub tiles: [PlainTile; 64],
    pub addrs: [PlainAddress; 64],
    pub count: u8,
}
