//! The tile that a line names.
ghost use Rattle.std.specs.Prelude.{◌≡◌};

use cyclo_points::motion::Motion;
use listing_text::entry::Entry;
use tile_place::placed_tile::PlacedTile;
use tile_shape::address::Address;

/// Puts the tile that a line names, with its motion.
pub(crate) fn put_line(line: &Entry, tile: &mut PlacedTile)
    ensures kind { tile.new.kind ≡ line.now.address.kind }
    ensures motion { tile.new.motion ≡ line.now.motion }
    ensures address { tile.new.addr ≡ line.now.address }
{
    tile.kind = line.address.kind;
    tile.motion = line.motion;
    tile.addr.kind = line.address.kind;
    tile.addr.digits.clear();
    let _ = tile
        .addr
        .digits
        .try_extend_from_slice(line.address.digits.as_slice());
}

/// Returns a placeholder for a tile.
pub(crate) fn no_tile() -> PlacedTile {
    PlacedTile {
        kind: 0,
        motion: Motion::default(),
        addr: Address::new(0),
    }
}
