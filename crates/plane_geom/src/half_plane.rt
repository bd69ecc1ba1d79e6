//! Edges in open half planes, two half planes at a time.

ghost use Rattle.std.specs.Prelude.{◌≡◌, ◌^◌, pos};
ghost use Rattle.std.specs.Ordering.{is_gt};
ghost use Rattle.cyclo_points.specs.declared.order.Order.{Order};
ghost use Rattle.cyclo_points.specs.Order.{points_of};
ghost use Rattle.cyclo_points.specs.Real.{real_in, IsRealWithin};
ghost use Rattle.theory_plane.specs.BoxTest.{inside_below, inside_above, overlap, passes_both, meets_both, meets_each_two};
ghost use Rattle.plane_geom.specs.Measured.{depths_in, IsMeasured};

use cyclo_points::order::Order;
use cyclo_points::real::Real;
use cyclo_points::real_product::rmul;
use cyclo_points::real_sum::{radd, rsub};
use cyclo_points::sign::sign;

/// How far the start and the end of an edge are inside a half plane, and whether each is strictly inside.
#[derive(Clone, Copy)]
pub struct Measured {
    pub start: Real,
    pub end: Real,
    pub starts_inside: bool,
    pub ends_inside: bool,
}

/// Returns true if r is positive.
fn is_positive(order: Order, r: &Real) -> bool
    requires within { IsRealWithin (2 ^ 61) r.now }
    ensures { result ≡ is_gt ((points_of order).real.sign (real_in order r.now)) }
{
    sign(order, r).is_gt()
}

/// Measures an edge in a half plane, by the depths of its two ends.
pub fn measure(order: Order, start: Real, end: Real) -> Measured
    requires start_within { IsRealWithin (2 ^ 29) start }
    requires end_within { IsRealWithin (2 ^ 29) end }
    ensures of_start { result.start ≡ start }
    ensures of_end { result.end ≡ end }
    ensures is_measured { IsMeasured order result }
{
    let starts_inside = is_positive(order, &start);
    let ends_inside = is_positive(order, &end);
    Measured {
        start,
        end,
        starts_inside,
        ends_inside,
    }
}

/// Measures an edge in the half plane below the greatest coordinate of a box. `start` and `end` are the
/// coordinates of its ends, counted from the box's centre.
pub fn below(order: Order, extent: u16, start: &Real, end: &Real) -> Measured
    requires start_within { IsRealWithin (2 ^ 28) start.now }
    requires end_within { IsRealWithin (2 ^ 28) end.now }
    ensures depths { depths_in order result
        ≡ inside_below (points_of order).real.ops ((points_of order).real.ops.int (pos extent))
        (real_in order start.now) (real_in order end.now) }
    ensures is_measured { IsMeasured order result }
{
    let extent = whole(order, extent);
    measure(order, rsub(&extent, start), rsub(&extent, end))
}

/// Measures an edge in the half plane above the least coordinate of a box. `start` and `end` are the
/// coordinates of its ends, counted from the box's centre.
pub fn above(order: Order, extent: u16, start: &Real, end: &Real) -> Measured
    requires start_within { IsRealWithin (2 ^ 28) start.now }
    requires end_within { IsRealWithin (2 ^ 28) end.now }
    ensures depths { depths_in order result
        ≡ inside_above (points_of order).real.ops ((points_of order).real.ops.int (pos extent))
        (real_in order start.now) (real_in order end.now) }
    ensures is_measured { IsMeasured order result }
{
    let extent = whole(order, extent);
    measure(order, radd(&extent, start), radd(&extent, end))
}

/// A whole number as a real.
fn whole(order: Order, n: u16) -> Real
    ensures value { real_in order result ≡ (points_of order).real.ops.int (pos n) }
    ensures within { IsRealWithin (2 ^ 16) result }
{
    Real { a: n as i128, b: 0 }
}

/// Returns true if an edge that starts in the half plane of f and ends in that of g enters the second before
/// it leaves the first.
fn enters_first(order: Order, f: &Measured, g: &Measured) -> bool
    requires f_measured { IsMeasured order f.now }
    requires g_measured { IsMeasured order g.now }
    ensures { result
        ≡ is_gt ((points_of order).real.sign (overlap (points_of order).real.ops (depths_in order f.now)
        (depths_in order g.now))) }
{
    let outer = rmul(order, &f.start, &g.end);
    let inner = rmul(order, &g.start, &f.end);
    let difference = rsub(&outer, &inner);
    is_positive(order, &difference)
}

/// Returns true if an edge starts in the half plane of f, ends in that of g and is in both on its way.
fn passes(order: Order, f: &Measured, g: &Measured) -> bool
    requires f_measured { IsMeasured order f.now }
    requires g_measured { IsMeasured order g.now }
    ensures { result ≡ passes_both (points_of order).real (depths_in order f.now) (depths_in order g.now) }
{
    f.starts_inside && g.ends_inside && enters_first(order, f, g)
}

/// Returns true if an edge has a point in both half planes.
fn meets_two(order: Order, f: &Measured, g: &Measured) -> bool
    requires f_measured { IsMeasured order f.now }
    requires g_measured { IsMeasured order g.now }
    ensures { result ≡ meets_both (points_of order).real (depths_in order f.now) (depths_in order g.now) }
{
    f.starts_inside && g.starts_inside
        || f.ends_inside && g.ends_inside
        || passes(order, f, g)
        || passes(order, g, f)
}

/// Returns true if an edge has a point in each two of four half planes. By Helly's theorem on a line it then
/// has one in all of them.
pub fn meets_four(order: Order, f: &Measured, g: &Measured, h: &Measured, k: &Measured) -> bool
    requires f_measured { IsMeasured order f.now }
    requires g_measured { IsMeasured order g.now }
    requires h_measured { IsMeasured order h.now }
    requires k_measured { IsMeasured order k.now }
    ensures { result
        ≡ meets_each_two (points_of order).real (depths_in order f.now) (depths_in order g.now)
        (depths_in order h.now) (depths_in order k.now) }
{
    meets_two(order, f, g)
        && meets_two(order, f, h)
        && meets_two(order, f, k)
        && meets_two(order, g, h)
        && meets_two(order, g, k)
        && meets_two(order, h, k)
}
