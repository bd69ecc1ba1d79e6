//! A whole tile.
use tile_place::placed_tile::PlacedTile;

/// A tile without a glue edge, or two halves glued into one tile.
#[derive(Debug, Drop, PartialEq, Eq)]
pub struct WholeTile {
    /// The single tile, or the half with the lesser kind.
    pub first: PlacedTile,
    /// The other half, if there is one.
    pub second: Option<PlacedTile>,
}
