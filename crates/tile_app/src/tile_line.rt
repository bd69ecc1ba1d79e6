//! The line of a tile in its place.
ghost use Rattle.std.specs.Prelude.{◌≡◌, ◌++◌, None, Some, IfOk, OnOk, string_bytes};
ghost use Rattle.cyclo_points.specs.declared.order.Order.{Order};
ghost use Rattle.cyclo_points.specs.Motion.{motion_in};
ghost use Rattle.cyclo_points.specs.Point.{IsOf};
ghost use Rattle.tile_app.specs.TileLine.{tile_line};
ghost use Rattle.tile_shape.specs.Views.{address_of};

use layer_api::line::Line;
use std::alloc::AllocError;
use tile_place::placed_tile::PlacedTile;

/// Appends the line of a tile in its place, with the number of the edge that leads back, or of a vertex. The
/// line is made in fixed storage.
pub fn write_line(
    text: &mut Vec<u8>,
    line: &mut Line,
    tile: &PlacedTile,
    back: u8,
) -> Result<(), AllocError>
    ensures { OnOk result ((order : Order) → IsOf order tile.now.motion.shift
        → tile.now.kind ≡ tile.now.addr.kind
        → text.new.items ≡ text.old.items ++ tile_line order (address_of tile.now.addr)
        (motion_in order tile.now.motion) (Some back)) }
{
    line.clear();
    line.put(b'\n');
    line.put_small(back);
    line.put(b' ');
    line.put_address(&tile.addr);
    line.put(b' ');
    line.put_motion(&tile.motion);
    line.put(b' ');
    line.put_small(tile.kind);
    Ok(text.extend_from_slice(line.as_bytes())?)
}
