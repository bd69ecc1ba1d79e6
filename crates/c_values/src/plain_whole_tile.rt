//! Whole tiles as plain numbers.

use crate::plain_address::PlainAddress;
use crate::plain_tile::PlainTile;

/// A whole tile. `parts` is 2 for two glued halves, and 1 for a tile that is no half. Each part has its
/// address in the frame at the same index in `addrs`. If there is one part, all numbers of the second entry
/// are 0.
#[repr(C)]
#[derive(Clone, Copy)]
pub struct PlainWholeTile {
    pub tiles: [PlainTile; 2],
    pub addrs: [PlainAddress; 2],
    pub parts: u8,
}
