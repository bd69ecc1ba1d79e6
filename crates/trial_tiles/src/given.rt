//! Results as texts.
use std::alloc::{AllocError, Global};
use tile_place::placed_tile::PlacedTile;
use tile_shape::address::Address;
use tile_shape::step::Step;

/// A tile as a text `kind turn shift address`.
pub(crate) fn tile_text(alloc: Global, tile: &PlacedTile) -> Result<String, AllocError> {
    format!(in alloc; "{} {} {}", tile.kind, tile.motion, tile.addr)
}

/// Tiles as lines.
pub(crate) fn listed(alloc: Global, tiles: &[PlacedTile]) -> Result<String, AllocError> {
    let mut text = String::new(alloc);
    for tile in tiles {
        text.push_str(tile_text(alloc, tile)?.as_str())?;
        text.push('\n')?;
    }
    Ok(text)
}

/// An address of the chair's kind, with these children at the fine end and child 0 at the others.
pub(crate) fn deep(children: &[u8], depth: usize) -> Address {
    let mut addr = Address::new(0);
    for number in 0..depth {
        let child = children.get(number).map_or(0, |child| *child);
        let _ = addr.push_coarse(Step { child, parent: 0 });
    }
    addr
}

/// Returns a text with its pieces repeated: `«PIECE×TIMES»`.
pub(crate) fn spelled(alloc: Global, text: &str) -> Result<String, AllocError> {
    let mut all = String::new(alloc);
    for part in text.split('«') {
        let (repeated, rest) = part.split_once('»').unwrap_or(("", part));
        let (piece, times) = repeated.split_once('×').unwrap_or(("", ""));
        let times: u32 = times.parse().unwrap_or(0);
        for _ in 0..times {
            all.push_str(piece)?;
        }
        all.push_str(rest)?;
    }
    Ok(all)
}
