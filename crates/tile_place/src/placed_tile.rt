//! A tile and its place.
use cyclo_points::motion::Motion;
use tile_shape::address::Address;

/// A tile of a supertile: its kind, the motion that takes its prototile to its place, and its address.
#[derive(Debug, Drop, PartialEq, Eq)]
pub struct PlacedTile {
    /// The kind of the tile.
    pub kind: u8,
    /// The motion of its prototile.
    pub motion: Motion,
    /// Its address in the supertile.
    pub addr: Address,
}
