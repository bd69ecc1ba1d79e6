//! Tiles as plain numbers.
ghost use Rattle.std.specs.Prelude.{◌≡◌, ◌<◌, ◌^◌, ◌↔◌, IsTrue, IsSome, IfSome};
ghost use Rattle.cyclo_points.specs.Order.{points_of};
ghost use Rattle.cyclo_points.specs.Point.{IsOf, IsWithin};
ghost use Rattle.c_values.specs.Tiles.{motion_of, tile_as, refused_as, GivesMotion};

use cyclo_points::arithmetic::refused;
use cyclo_points::motion::Motion;
use cyclo_points::order::Order;
use cyclo_points::point::Point;

/// A tile at its place: z ↦ ζ^turn z + shift takes the prototile of its kind there.
///
/// - `number` is an edge or a vertex, if the call says so, and otherwise 0.
/// - `status`, for a tile in an array, shows if it is one.
/// - `rest` is 0.
#[repr(C)]
#[derive(Clone, Copy)]
pub struct PlainTile {
    pub shift: [i64; 4],
    pub status: u8,
    pub kind: u8,
    pub turn: u8,
    pub number: u8,
    pub rest: [u8; 4],
}

/// Returns true if a point is one of the order: in orders 4 and 6 its last two coefficients must be 0.
fn is_of(order: Order, p: &Point) -> bool
    ensures { IsTrue result ↔ IsOf order p.now }
{
    match order {
        Order::Four => p.c[2] == 0 && p.c[3] == 0,
        Order::Six => p.c[2] == 0 && p.c[3] == 0,
        Order::Eight => true,
        Order::Ten => true,
    }
}

impl PlainTile {
    /// Makes a tile of a kind that a motion takes to its place, with a number.
    pub fn placed(kind: u8, motion: &Motion, number: u8) -> PlainTile
        ensures { result ≡ tile_as kind motion.now number }
    {
        PlainTile {
            shift: motion.shift.c,
            status: 0,
            kind,
            turn: motion.turn,
            number,
            rest: [0, 0, 0, 0],
        }
    }

    /// Makes an entry that is no tile, for the reason in `status`.
    pub fn refused(status: u8) -> PlainTile
        ensures { result ≡ refused_as status }
    {
        PlainTile {
            shift: [0, 0, 0, 0],
            status,
            kind: 0,
            turn: 0,
            number: 0,
            rest: [0, 0, 0, 0],
        }
    }

    /// Returns the motion of these numbers in an order, or None exactly if they give none.
    pub fn motion(&self, order: Order) -> Option<Motion>
        ensures motion { IfSome result (λ m. m ≡ motion_of self.now) }
        ensures turn_below { IfSome result (λ m. m.turn < (points_of order).order) }
        ensures shift_within { IfSome result (λ m. IsWithin (2 ^ 24) m.shift) }
        ensures in_order { IfSome result (λ m. IsOf order m.shift) }
        ensures given { IsSome result ↔ GivesMotion order self.now }
    {
        let shift = Point { c: self.shift };
        if self.turn >= order.n() || refused(&shift) || !is_of(order, &shift) {
            return None;
        }
        Some(Motion {
            turn: self.turn,
            shift,
        })
    }
}
