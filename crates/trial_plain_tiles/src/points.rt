//! Points of tiles: vertices, midpoints of edges, and points inside.
use crate::drawn_tile::DrawnTile;
use crate::small::near;
use cyclo_points::order::Order;
use cyclo_points::point::Point;
use cyclo_points::rotation::turn;
use std::alloc::Global;
use tile_shape::no_memory::NoMemory;

/// Returns the sum, coefficient by coefficient.
fn sum(p: &Point, q: &Point) -> Point {
    Point {
        c: [
            p.c[0].wrapping_add(q.c[0]),
            p.c[1].wrapping_add(q.c[1]),
            p.c[2].wrapping_add(q.c[2]),
            p.c[3].wrapping_add(q.c[3]),
        ],
    }
}

/// Returns the difference, coefficient by coefficient.
fn difference(p: &Point, q: &Point) -> Point {
    Point {
        c: [
            p.c[0].wrapping_sub(q.c[0]),
            p.c[1].wrapping_sub(q.c[1]),
            p.c[2].wrapping_sub(q.c[2]),
            p.c[3].wrapping_sub(q.c[3]),
        ],
    }
}

/// Returns the midpoint of two points, if it is a point of the ring.
pub fn middle(p: &Point, q: &Point) -> Option<Point> {
    let twice = sum(p, q);
    if (twice.c[0] | twice.c[1] | twice.c[2] | twice.c[3]) & 1 != 0 {
        return None;
    }
    Some(Point {
        c: [
            twice.c[0] >> 1,
            twice.c[1] >> 1,
            twice.c[2] >> 1,
            twice.c[3] >> 1,
        ],
    })
}

/// Returns the point times a number between 0 and 1/2, if the ring has one. In order eight it is √2 - 1, with
/// √2 = ζ + ζ^-1. In order ten it is 2 - φ, with φ = ζ + ζ^-1.
fn shrunk(order: Order, p: &Point) -> Option<Point> {
    if !near(p) {
        return None;
    }
    match order {
        Order::Eight => {
            let root = sum(&turn(order, 1, p), &turn(order, 7, p));
            Some(difference(&root, p))
        }
        Order::Ten => {
            let golden = sum(&turn(order, 1, p), &turn(order, 9, p));
            Some(difference(&sum(p, p), &golden))
        }
        _ => None,
    }
}

/// Returns a point inside the triangle of p, q and r: p + w (q - p) + w (r - p), with w between 0 and 1/2.
fn inside(order: Order, p: &Point, q: &Point, r: &Point) -> Option<Point> {
    let sides = sum(&difference(q, p), &difference(r, p));
    Some(sum(p, &shrunk(order, &sides)?))
}

/// Returns the vertices of all tiles, and the midpoints of edges and points inside that are points of the
/// ring. They are in order, and none is repeated.
pub fn points(alloc: Global, order: Order, tiles: &[DrawnTile]) -> Result<Vec<Point>, NoMemory> {
    let mut points = Vec::new(alloc);
    for drawn in tiles {
        let corners = drawn.corners();
        if let (Some(first), Some(last)) = (corners.first(), corners.last()) {
            let mut before = last;
            for corner in corners {
                points.push(*corner)?;
                if let Some(point) = middle(before, corner) {
                    points.push(point)?;
                }
                if let Some(point) = inside(order, first, before, corner) {
                    points.push(point)?;
                }
                before = corner;
            }
        }
    }
    points.sort_unstable();
    points.dedup();
    Ok(points)
}
