//! Windows answered in two ways, by a search from the centre and from the top down: the same tiles, or the
//! same fault.
use crate::given::deep;
use crate::wrong::assert_of;
use builtin_rules::name::Name;
use cyclo_points::point::Point;
use plane_geom::window::Window;
use std::process::Abort;
use std::test::Fail;
use tile_place::machine::Machine;
use tile_shape::address::Address;
use trial_plain_tiles::built_in::{NAMES, machine_of};
use trial_plain_tiles::counts::Counts;
use trial_plain_tiles::draws::Draws;
use trial_plain_tiles::two_ways::{alike, alike_windows};

/// The half-widths and half-heights at the change from one way to the other, and of the thinnest windows.
const EXTENTS: [(u16, u16); 9] = [
    (22, 22),
    (20, 25),
    (25, 20),
    (1, 499),
    (1, 500),
    (499, 1),
    (500, 1),
    (1, 4096),
    (4096, 1),
];

/// Centres as far off as a window's may be, and near ones.
const CENTRES: [[i64; 4]; 6] = [
    [4_194_304, 0, 0, 0],
    [-4_194_304, 4_194_304, 0, 0],
    [1_000_000, -3_000_000, 0, 0],
    [7, -5, 0, 0],
    [0, 4_194_304, 0, 0],
    [-2, 900, 0, 0],
];

/// Compares both ways on a window.
fn check<R: Abort + AllocGlobal>(
    rt: &R,
    name: Name,
    machine: &Machine,
    base: &Address,
    window: &Window,
) -> Result<(), Fail> {
    let is_alike = alike(rt.alloc(), machine, base, 42, window);
    assert_eq!(rt; is_alike, Some(true), "{name:?} {base} {window:?}");
    Ok(())
}

/// 60 windows of each rule, two thirds of them so large that they are answered from the top down.
#[test]
fn drawn(rt: HostRuntime) -> Result<(), Fail> {
    let wanted = Counts {
        right: 60,
        differ: 0,
    };
    for name in NAMES {
        let machine = machine_of(rt.alloc(), name)?;
        let counts = alike_windows(rt.alloc(), &machine, 60, 70);
        assert_of(&rt, name, counts == wanted);
    }
    Ok(())
}

/// Windows at the change, and thin ones.
#[test]
fn at_the_change(rt: HostRuntime) -> Result<(), Fail> {
    for name in NAMES {
        let machine = machine_of(rt.alloc(), name)?;
        for (w, h) in EXTENTS {
            let window = Window {
                centre: Point { c: [2, -1, 0, 0] },
                w,
                h,
            };
            check(&rt, name, &machine, &Address::new(0), &window)?;
        }
    }
    Ok(())
}

/// Centres at the limit, whose ancestors' vertices pass what the descent takes.
#[test]
fn far_centres(rt: HostRuntime) -> Result<(), Fail> {
    for name in NAMES {
        let machine = machine_of(rt.alloc(), name)?;
        for c in CENTRES {
            let window = Window {
                centre: Point { c },
                w: 40,
                h: 35,
            };
            check(&rt, name, &machine, &Address::new(0), &window)?;
        }
    }
    Ok(())
}

/// Bases in a corner of all their ancestors up to a level, and bases of depth 64. The first ancestor to hold
/// the window has numbers just within and just beyond the limits of the descent.
#[test]
fn deep_bases(rt: HostRuntime) -> Result<(), Fail> {
    let window = Window {
        centre: Point { c: [1, 1, 0, 0] },
        w: 33,
        h: 31,
    };
    for name in NAMES {
        let machine = machine_of(rt.alloc(), name)?;
        let mut draws = Draws { state: 5 };
        for depth in [3, 9, 15, 18, 19, 20, 21, 22, 23, 24, 25, 27, 30, 33, 36, 64] {
            let any = draws.address(&machine, depth, true);
            let corner = draws.address(&machine, depth, false);
            for base in [any, corner] {
                let base = base.unwrap_or(Address::new(0));
                check(&rt, name, &machine, &base, &window)?;
            }
        }
    }
    Ok(())
}

/// A window with too many tiles, and one that is never inside.
#[test]
fn refused(rt: HostRuntime) -> Result<(), Fail> {
    let machine = machine_of(rt.alloc(), Name::Chair)?;
    let wide = Window {
        centre: Point { c: [0; 4] },
        w: 2500,
        h: 2500,
    };
    check(&rt, Name::Chair, &machine, &deep(&[1, 2], 9), &wide)?;
    let corner = Window {
        centre: Point { c: [0; 4] },
        w: 30,
        h: 31,
    };
    check(&rt, Name::Chair, &machine, &deep(&[], 64), &corner)
}
