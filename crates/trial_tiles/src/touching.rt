//! Windows around vertices, midpoints of edges and points on them. Their sides run through vertices, along
//! edges and through corners of tiles that they only touch.
use crate::drawn_windows::MOST_TILES;
use crate::wrong::assert_of;
use cyclo_points::point::Point;
use plane_geom::window::Window;
use std::alloc::Global;
use std::test::Fail;
use tile_place::machine::Machine;
use tile_shape::address::Address;
use tile_shape::no_memory::NoMemory;
use trial_plain_tiles::built_in::{NAMES, machine_of};
use trial_plain_tiles::counts::Counts;
use trial_plain_tiles::draws::Draws;
use trial_plain_tiles::placing::corners;
use trial_plain_tiles::points::middle;
use trial_plain_tiles::window_tiles::{compared, covered};

/// The vertices of the tiles of a window, and the middles of their edges.
fn centres(alloc: Global, machine: &Machine, base: &Address) -> Result<Vec<Point>, NoMemory> {
    let mut points = Vec::new(alloc);
    let round = Window {
        centre: Point { c: [0; 4] },
        w: 2,
        h: 2,
    };
    if let Some((Ok(tiles), _)) = covered(alloc, machine, base, &round) {
        for tile in tiles.as_slice() {
            if let Some(corners) = corners(machine, tile) {
                let mut last = corners[corners.len() - 1];
                for corner in corners.as_slice() {
                    points.push(*corner)?;
                    if let Some(point) = middle(&last, corner) {
                        points.push(point)?;
                    }
                    last = *corner;
                }
            }
        }
    }
    Ok(points)
}

/// How many windows round these points are covered by the tiles that are listed; and how many by others.
fn counted(alloc: Global, machine: &Machine, base: &Address) -> Result<Counts, NoMemory> {
    let points = centres(alloc, machine, base)?;
    let mut counts = Counts::default();
    for (number, point) in points.as_slice().iter().enumerate() {
        let window = Window {
            centre: *point,
            w: if number & 1 == 0 { 1 } else { 2 },
            h: if number & 2 == 0 { 1 } else { 2 },
        };
        if let Some((is_right, _)) = compared(alloc, machine, base, &window, MOST_TILES)? {
            counts.count(is_right);
        }
    }
    Ok(counts)
}

#[test]
fn windows_that_touch(rt: HostRuntime) -> Result<(), Fail> {
    for name in NAMES {
        let machine = machine_of(rt.alloc(), name)?;
        let mut draws = Draws { state: 3 };
        let base = draws.address(&machine, 2, true).unwrap_or(Address::new(0));
        let counts = counted(rt.alloc(), &machine, &base)?;
        assert_of(&rt, name, counts.differ == 0 && counts.right >= 5);
    }
    Ok(())
}
