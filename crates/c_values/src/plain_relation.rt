//! How two tiles lie to each other, as plain numbers.

/// The two tiles have no common supertile.
pub const STRANGERS: u8 = 0;

/// They are the same tile.
pub const SAME: u8 = 1;

/// They are two tiles of one supertile, and no edge of one lies on an edge of the other.
pub const APART: u8 = 2;

/// They are two tiles of one supertile, and some edge of one lies on an edge of the other.
pub const BESIDE: u8 = 3;

/// Stands for no edge.
pub const NO_BACK: u8 = 255;

/// How one tile lies to another: `relation` is one of the four numbers above. For each edge of the first
/// tile, `backs` has the edge of the second that lies on it, or 255 if none does.
#[repr(C)]
#[derive(Clone, Copy)]
pub struct PlainRelation {
    pub relation: u8,
    pub backs: [u8; 12],
}
