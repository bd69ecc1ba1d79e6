//! Windows as plain numbers.
ghost use Rattle.std.specs.Prelude.{◌≡◌, ◌↔◌, ◌^◌, Some, IsSome, IfSome, IsTrue};
ghost use Rattle.cyclo_points.specs.Point.{Within, IsWithin, IsOf};
ghost use Rattle.window_cover.specs.Windows.{IsWindow};
ghost use Rattle.c_values.specs.Windows.{window_in, IsExtent, GivesWindow};

use cyclo_points::coordinates::reduce;
use cyclo_points::order::Order;
use cyclo_points::point::Point;
use plane_geom::window::Window;

/// The greatest coefficient of a centre, in absolute value.
const MOST_COEFFICIENT: i64 = 1048576;

/// The greatest half-width or half-height.
const MOST_EXTENT: u16 = 4096;

/// A window: the points whose X and Y differ from those of the point `at` by less than `w` and `h`.
#[repr(C)]
#[derive(Clone, Copy)]
pub struct PlainWindow {
    pub at: [i64; 4],
    pub w: u16,
    pub h: u16,
}

/// Returns true if a coefficient is at most 2^20 in absolute value.
fn is_near(coefficient: i64) -> bool
    ensures { IsTrue result ↔ Within (2 ^ 20) coefficient }
{
    -MOST_COEFFICIENT <= coefficient && coefficient <= MOST_COEFFICIENT
}

/// Returns true if each coefficient of a point is at most 2^20 in absolute value.
pub(crate) fn are_near(p: &Point) -> bool
    ensures { IsTrue result ↔ IsWithin (2 ^ 20) p.now }
{
    if !is_near(p.c[0]) {
        return false;
    }
    if !is_near(p.c[1]) {
        return false;
    }
    if !is_near(p.c[2]) {
        return false;
    }
    is_near(p.c[3])
}

/// Returns true if a number may be a half-width or half-height.
fn is_extent(extent: u16) -> bool
    ensures { IsTrue result ↔ IsExtent extent }
{
    1 <= extent && extent <= MOST_EXTENT
}

impl PlainWindow {
    /// Returns the window of these numbers in an order, or None exactly if they give none.
    pub fn window(&self, order: Order) -> Option<Window>
        ensures window { IfSome result (λ w. w ≡ window_in order self.now) }
        ensures fits { IfSome result IsWindow }
        ensures in_order { IfSome result (λ w. IsOf order w.centre) }
        ensures given { IsSome result ↔ GivesWindow self.now }
    {
        let at = Point { c: self.at };
        if !are_near(&at) || !is_extent(self.w) || !is_extent(self.h) {
            return None;
        }
        Some(Window {
            centre: reduce(order, &at),
            w: self.w,
            h: self.h,
        })
    }
}
