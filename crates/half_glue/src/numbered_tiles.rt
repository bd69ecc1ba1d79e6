//! Tiles by the numbers that pairs give them.
ghost use Rattle.std.specs.Prelude.{◌≡◌, All};
ghost use Rattle.tile_place.specs.Keys.{key_of};
ghost use Rattle.half_glue.specs.Found.{given_tile};
ghost use Rattle.half_glue.specs.NumberedTiles.{HasTile, tiles_in};
ghost use Rattle.half_glue.specs.Keys.{HasTileKey};

use cyclo_points::motion::Motion;
use tile_place::order_key::OrderKey;
use tile_place::placed_tile::PlacedTile;
use tile_shape::address::Address;
use window_cover::covered_tiles::CoveredTiles;

/// The tiles whose numbers are in pairs. The tiles of the window come first in the numbering, then the tiles
/// crossed to.
#[derive(Clone, Copy)]
pub(crate) struct NumberedTiles<'a> {
    pub(crate) tiles: &'a CoveredTiles,
    pub(crate) crossed: &'a [PlacedTile],
}

impl<'a> NumberedTiles<'a> {
    /// Returns the motion and the kind of the tile with this number.
    #[inline]
    pub(crate) fn place(&self, number: u32) -> (Motion, u8)
        requires { HasTile self.now number }
        ensures motion { result.0 ≡ (given_tile (tiles_in self.now) number).motion }
        ensures kind { result.1 ≡ (given_tile (tiles_in self.now) number).kind }
    {
        let place = number as usize;
        let count = self.tiles.len();
        if place < count {
            (self.tiles.motion(place), self.tiles.kind(place))
        } else {
            let tile = &self.crossed[place - count];
            (tile.motion, tile.kind)
        }
    }

    /// Returns the key of the tile with this number, with a number of its own.
    pub(crate) fn key(&self, number: u32, own: u32) -> OrderKey
        requires below { HasTile self.now number }
        requires fit { All HasTileKey (tiles_in self.now) }
        ensures { result ≡ key_of (given_tile (tiles_in self.now) number).motion
            (given_tile (tiles_in self.now) number).kind own }
    {
        let (motion, kind) = self.place(number);
        OrderKey::of(&motion, kind, own)
    }

    /// Replaces a kind, a motion and an address by those of the tile with this number, as it was found.
    pub(crate) fn put(&self, number: u32, kind: &mut u8, motion: &mut Motion, addr: &mut Address)
        requires { HasTile self.now number }
        ensures { record { kind = kind.new; motion = motion.new; addr = addr.new } ≡ given_tile
            (tiles_in self.now) number }
    {
        let place = number as usize;
        let count = self.tiles.len();
        if place < count {
            self.tiles.put(place, kind, motion, addr);
        } else {
            let tile = &self.crossed[place - count];
            *kind = tile.kind;
            *motion = tile.motion;
            *addr = tile.addr.copy();
        }
    }
}
