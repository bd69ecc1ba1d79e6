//! The edges of the tiles of a supertile, by their ends.
use crate::placed::moved;
use cyclo_points::point::Point;
use rule_model::rule::Rule;
use std::alloc::Global;
use std::test::Fail;
use tile_place::placed_tile::PlacedTile;

/// An edge of a tile of a list, by its two ends.
#[derive(Clone, Copy, Drop)]
pub(crate) struct Side {
    pub tile: usize,
    pub edge: u8,
    pub start: Point,
    pub end: Point,
}

/// A vertex of a tile; None where there is none of this number.
fn corner(rule: &Rule, tile: &PlacedTile, i: usize) -> Option<Point> {
    let kind = usize::from(tile.kind);
    if kind >= rule.kind_count() || i >= rule.vertex_count(kind) {
        return None;
    }
    moved(rule.order, &tile.motion, &rule.vertex(kind, i))
}

/// The edge of this number, from its vertex to the next.
fn side_of(rule: &Rule, tiles: &[PlacedTile], number: usize, edge: u8) -> Option<Side> {
    let tile = tiles.get(number)?;
    let start = corner(rule, tile, usize::from(edge))?;
    let end = match corner(rule, tile, usize::from(edge) + 1) {
        Some(end) => end,
        None => corner(rule, tile, 0)?,
    };
    Some(Side {
        tile: number,
        edge,
        start,
        end,
    })
}

/// All edges of all tiles.
pub(crate) fn sides(alloc: Global, rule: &Rule, tiles: &[PlacedTile]) -> Result<Vec<Side>, Fail> {
    let mut all = Vec::new(alloc);
    for number in 0..tiles.len() {
        for edge in 0..12 {
            if let Some(side) = side_of(rule, tiles, number, edge) {
                all.push(side)?;
            }
        }
    }
    Ok(all)
}
