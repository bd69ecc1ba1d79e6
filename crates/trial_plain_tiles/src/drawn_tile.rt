//! Tiles with their vertices. Each can be tested against a point or a window.
ghost use Rattle.std.specs.Prelude.{◌≤◌, ◌^◌, All, length};
ghost use Rattle.cyclo_points.specs.Point.{IsWithin};

use crate::placing::corners;
use crate::small::near;
use arrayvec::ArrayVec;
use cyclo_points::coordinates::{x, y};
use cyclo_points::order::Order;
use cyclo_points::point::Point;
use cyclo_points::thousandths::floor_thousandths;
use plane_geom::box_edges::edge_meets_box;
use plane_geom::polygons::member;
use plane_geom::window::Window;
use std::alloc::Global;
use tile_place::machine::Machine;
use tile_place::placed_tile::PlacedTile;
use tile_shape::no_memory::NoMemory;

/// The position of a point: its coordinates in thousandths, rounded down.
#[derive(Clone, Copy, Debug, PartialEq, Eq)]
struct Spot {
    x: i128,
    y: i128,
}

impl Spot {
    /// Returns the position of a point, or None if its coefficients are refused.
    fn of(order: Order, p: &Point) -> Option<Spot> {
        if !near(p) {
            return None;
        }
        Some(Spot {
            x: floor_thousandths(order, &x(order, p)),
            y: floor_thousandths(order, &y(order, p)),
        })
    }
}

/// A placed tile with its vertices, and the least box around them.
#[derive(Debug, Drop)]
pub struct DrawnTile {
    pub tile: PlacedTile,
    corners: ArrayVec<Point, 12>,
    low: Spot,
    high: Spot,
    ghost near: { All (IsWithin (2 ^ 24)) corners.items },
    ghost at_least_3: { 3 ≤ length corners.items },
}

impl DrawnTile {
    /// Returns a tile with its vertices, or None if a vertex is refused.
    pub fn of(machine: &Machine, tile: PlacedTile) -> Option<DrawnTile> {
        let order = machine.checked().order();
        let corners = corners(machine, &tile)?;
        let mut low = Spot::of(order, &corners[0])?;
        let mut high = low;
        for corner in corners.as_slice() {
            let spot = Spot::of(order, corner)?;
            low.x = low.x.min(spot.x);
            low.y = low.y.min(spot.y);
            high.x = high.x.max(spot.x);
            high.y = high.y.max(spot.y);
        }
        Some(DrawnTile {
            tile,
            corners,
            low,
            high,
        })
    }

    /// Returns the vertices.
    pub fn corners(&self) -> &[Point] {
        self.corners.as_slice()
    }

    /// Returns true if a spot lies in the box around the vertices.
    fn is_round(&self, spot: Spot) -> bool {
        self.low.x <= spot.x
            && spot.x <= self.high.x
            && self.low.y <= spot.y
            && spot.y <= self.high.y
    }

    /// Returns true if the box around the vertices reaches a window whose centre lies at this spot.
    fn is_by(&self, centre: Spot, window: &Window) -> bool {
        let w = i128::from(window.w).wrapping_mul(1000);
        let h = i128::from(window.h).wrapping_mul(1000);
        self.low.x <= centre.x.wrapping_add(w)
            && centre.x.wrapping_sub(w) <= self.high.x
            && self.low.y <= centre.y.wrapping_add(h)
            && centre.y.wrapping_sub(h) <= self.high.y
    }

    /// Returns true if the tile meets a window: one of its edges meets it, or the tile holds the centre.
    pub fn meets(&self, order: Order, window: &Window) -> bool {
        let centre = match Spot::of(order, &window.centre) {
            Some(centre) if self.is_by(centre, window) => centre,
            _ => return false,
        };
        self.holds(order, &window.centre, centre) || self.has_edge_in(order, window)
    }

    /// Returns true if an edge of the tile meets a window.
    fn has_edge_in(&self, order: Order, window: &Window) -> bool {
        if !near(&window.centre) {
            return false;
        }
        let mut before = self.corners[self.corners.len() - 1];
        for corner in self.corners.as_slice() {
            if near(&before) && near(corner) && edge_meets_box(order, &before, corner, window) {
                return true;
            }
            before = *corner;
        }
        false
    }

    /// Returns true if the tile holds a point, which lies at this spot.
    fn holds(&self, order: Order, point: &Point, spot: Spot) -> bool {
        self.is_round(spot) && near(point) && member(order, self.corners.as_slice(), point)
    }
}

/// Returns the tiles with their vertices.
pub fn drawn_tiles(
    alloc: Global,
    machine: &Machine,
    tiles: Vec<PlacedTile>,
) -> Result<Vec<DrawnTile>, NoMemory> {
    let mut all = Vec::new(alloc);
    for tile in tiles {
        if let Some(drawn) = DrawnTile::of(machine, tile) {
            all.push(drawn)?;
        }
    }
    Ok(all)
}

/// Returns how many tiles of a list hold a point, and the last of these.
pub fn holders<'a>(
    order: Order,
    tiles: &'a [DrawnTile],
    point: &Point,
) -> (u32, Option<&'a PlacedTile>) {
    let mut count: u32 = 0;
    let mut last = None;
    if let Some(spot) = Spot::of(order, point) {
        for drawn in tiles {
            if drawn.holds(order, point, spot) {
                count = count.saturating_add(1);
                last = Some(&drawn.tile);
            }
        }
    }
    (count, last)
}
