//! Listings that are the very text that is written of a window.
ghost use Rattle.std.specs.Prelude.{◌≡◌, ◌++◌, ◌∷◌, [], length, IfNone, IfSome, IsTrue};
ghost use Rattle.rule_model.specs.Tiling.{tiling_of};
ghost use Rattle.tile_place.specs.declared.placed_tile.PlacedTile.{PlacedTile};
ghost use Rattle.listing_text.specs.Written.{entry_text};
ghost use Rattle.cyclo_points.specs.Text.{newline};
ghost use Rattle.list_verify.specs.Verifying.{IsReady};
ghost use Rattle.list_verify.specs.Written.{tile_entry, IsListedAs, IsWrittenOf};

use crate::verifier::Verifier;
use cyclo_points::point::Point;
use layer_api::line::Line;
use lazy_walk::frame::Frame;
use listing_text::laws::written_law;
use plane_geom::window::Window;
use seeded_growth::laws::grown_fits_law;
use tile_place::placed_tile::PlacedTile;
use window_cover::covered_tiles::CoveredTiles;
use window_cover::tiles_of_window::covered_tiles;

impl<'a> Verifier<'a> {
    /// Returns the number of lines of a listing, if it is byte for byte the text of the window's tiles, in
    /// their order. Then the frame has grown to their depth. Otherwise it returns None, which says nothing of
    /// the listing.
    pub(crate) fn as_written(&self, frame: &mut Frame, listing: &[u8]) -> Option<u32>
        requires ready { IsReady self.now frame.old }
        ensures stays { IfNone result (frame.new ≡ frame.old) }
        ensures listed { IfSome result (IsListedAs (tiling_of self.now.machine.now) frame.old frame.new
            self.now.window.now listing.now) }
    {
        if !can_be_long_enough(self.window, listing) {
            return None;
        }
        let Ok(mut own) = frame.copy() else {
            return None;
        };
        written_law();
        let checked = self.machine.checked();
        grown_fits_law();
        let _usable = checked.uses().kinds();
        let Ok(tiles) = covered_tiles(self.alloc, self.machine, &mut own, self.window) else {
            return None;
        };
        let count = tiles.len();
        if count == 0 || !is_text_of(&tiles, listing) {
            return None;
        }
        *frame = own;
        Some(count as u32)
    }
}

/// Returns true if a listing has at least eight bytes for each unit square of a quarter of the window, as
/// lists of the built-in rules have. For a shorter one it is not worth making the list of the window.
fn can_be_long_enough(window: &Window, listing: &[u8]) -> bool {
    listing.len() >= 8 * usize::from(window.w) * usize::from(window.h)
}

/// Returns true if a text is the text of these tiles.
fn is_text_of(tiles: &CoveredTiles, text: &[u8]) -> bool
    ensures written { IsTrue result → IsWrittenOf tiles.now text.now }
{
    let mut line = Line::new();
    let mut rest = text;
    for place in 0..tiles.len() {
        put_line(&mut line, &tiles.tile(place));
        match rest.strip_prefix(line.as_bytes()) {
            Some(behind) => rest = behind,
            None => return false,
        }
    }
    rest.is_empty()
}

/// Makes the line of a tile, with its newline.
fn put_line(line: &mut Line, tile: &PlacedTile)
    ensures line { line.new ≡ entry_text (tile_entry tile.now) ++ newline ∷ [] }
    ensures four { length tile.now.motion.shift.c ≡ 4 }
{
    line.clear();
    line.put(b'\n');
    line.put_address(&tile.addr);
    line.put(b' ');
    line.put_motion(&tile.motion);
    line.put(b' ');
    line.put_small(tile.addr.kind);
    four_coefficients(&tile.motion.shift);
}

/// States that a point has four coefficients, which contracts see as a list.
#[inline]
fn four_coefficients(p: &Point)
    ensures { length p.now.c ≡ 4 }
{
    let _four = p.c.as_slice();
}
