//! Views and tiles put by hand.
ghost use Rattle.std.specs.Prelude.{◌≡◌, ◌≤◌, All, length, IsTrue, OnOk};
ghost use Rattle.layer_api.specs.Drawable.{IsNear, IsDrawable, IsView};

use arrayvec::ArrayVec;
use cyclo_points::motion::Motion;
use cyclo_points::order::Order;
use cyclo_points::point::Point;
use layer_api::drawn::Drawn;
use layer_api::layer::Layer;
use layer_api::part::Part;
use layer_api::view::View;
use tile_shape::address::Address;
use tile_shape::no_memory::NoMemory;
use tile_shape::step::Step;

/// A point of an order; of the orders four and six the first two coefficients alone.
pub(crate) fn near(order: Order, c: &[i8; 4]) -> Point
    ensures { IsNear order result }
{
    let a0 = i64::from(c[0]);
    let a1 = i64::from(c[1]);
    match order {
        Order::Four | Order::Six => Point { c: [a0, a1, 0, 0] },
        Order::Eight | Order::Ten => Point {
            c: [a0, a1, i64::from(c[2]), i64::from(c[3])],
        },
    }
}

/// A view.
pub(crate) fn view(order: Order, centre: &[i8; 4], half: (u16, u16), kinds: u8) -> View
    ensures near { IsView result }
    ensures order { result.order ≡ order }
{
    View {
        order,
        centre: near(order, centre),
        w: half.0,
        h: half.1,
        kinds,
    }
}

/// An outline.
pub(crate) fn outline(order: Order, points: &[[i8; 4]]) -> ArrayVec<Point, 24>
    requires three { 3 ≤ length points.now }
    requires at_most { length points.now ≤ 24 }
    ensures three { 3 ≤ length result.items }
    ensures near { All (IsNear order) result.items }
{
    let mut outline = ArrayVec::new();
    for point in points {
        outline.push(near(order, point));
    }
    outline
}

/// A part, with the digits of its address.
pub(crate) fn part(kind: u8, turn: u8, shift: [i64; 4], digits: &[(u8, u8)]) -> Part {
    let mut addr = Address::new(kind);
    for (child, parent) in digits {
        let _ = addr.push_coarse(Step {
            child: *child,
            parent: *parent,
        });
    }
    Part {
        kind,
        motion: Motion {
            turn,
            shift: Point { c: shift },
        },
        addr,
    }
}

/// A tile of one part, whose kind is its class.
pub(crate) fn whole(order: Order, points: &[[i8; 4]], first: Part) -> Drawn
    requires three { 3 ≤ length points.now }
    requires at_most { length points.now ≤ 24 }
    ensures { IsDrawable order result }
{
    Drawn {
        class: first.kind,
        outline: outline(order, points),
        first,
        second: None,
    }
}

/// A tile of two halves.
pub(crate) fn joined(order: Order, points: &[[i8; 4]], first: Part, second: Part) -> Drawn
    requires three { 3 ≤ length points.now }
    requires at_most { length points.now ≤ 24 }
    ensures { IsDrawable order result }
{
    Drawn {
        class: first.kind,
        outline: outline(order, points),
        first,
        second: Some(second),
    }
}

/// The vertices of two chairs: the one at the origin, and the one with turn 1 and shift 3,1.
pub(crate) const CHAIRS: [[[i8; 4]; 8]; 2] = [
    [
        [1, 1, 0, 0],
        [1, 2, 0, 0],
        [0, 2, 0, 0],
        [0, 1, 0, 0],
        [0, 0, 0, 0],
        [1, 0, 0, 0],
        [2, 0, 0, 0],
        [2, 1, 0, 0],
    ],
    [
        [2, 2, 0, 0],
        [1, 2, 0, 0],
        [1, 1, 0, 0],
        [2, 1, 0, 0],
        [3, 1, 0, 0],
        [3, 2, 0, 0],
        [3, 3, 0, 0],
        [2, 3, 0, 0],
    ],
];

/// Draws two chairs in the window round 1,1: one that is handed over, and one that is kept.
pub(crate) fn draw_chairs<L: Layer>(layer: &mut L) -> Result<(), NoMemory>
    ensures { OnOk result (IsTrue (L.ended layer.new)) }
{
    let order = Order::Four;
    layer.begin(view(order, &[1, 1, 0, 0], (2, 1), 1));
    layer.put(whole(order, &CHAIRS[0], part(0, 0, [0; 4], &[(3, 0)])))?;
    let second = whole(order, &CHAIRS[1], part(0, 1, [3, 1, 0, 0], &[(1, 0)]));
    layer.put_copy(&second)?;
    layer.end()?;
    Ok(())
}

/// Returns true if two chairs are drawn as this text; None where the layer refuses.
pub(crate) fn drawn<L: Layer>(layer: &mut L, wanted: &str) -> Option<bool> {
    match draw_chairs(layer) {
        Ok(()) => Some(layer.bytes() == wanted.as_bytes()),
        Err(NoMemory) => None,
    }
}
