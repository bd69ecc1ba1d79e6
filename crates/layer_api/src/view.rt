//! The part of a tiling that is drawn.
use cyclo_points::order::Order;
use cyclo_points::point::Point;

/// The part of a tiling that is drawn: a window around a centre, in the points of the tiling's order, and the
/// number of kinds of tiles.
#[derive(Clone, Copy, Debug, PartialEq, Eq)]
pub struct View {
    /// The order of the points.
    pub order: Order,
    /// The centre of the window.
    pub centre: Point,
    /// Half the window's width, in units of the coordinate X.
    pub w: u16,
    /// Half the window's height, in units of the coordinate Y.
    pub h: u16,
    /// The number of kinds of tiles.
    pub kinds: u8,
}
