//! The exact geometry of the plane, with coefficients small and at their bound.
ghost use Rattle.std.specs.Prelude.{◌^◌, ◌≤◌, All, IsTrue, length};
ghost use Rattle.cyclo_points.specs.Point.{IsWithin};

use crate::numbers::note_numbers;
use crate::points::note_points;
use crate::sizes::{all_within, within};
use crate::wrong::{NONE, Wrong};
use cyclo_points::order::Order;
use cyclo_points::point::Point;
use plane_geom::box_edges::edge_meets_box;
use plane_geom::laws::{
    crossing_law, factor_law, fan_law, motion_law, product_law, segment_law, triangle_law,
};
use plane_geom::polygons::{count, member};
use plane_geom::right_side::right_side_law;
use plane_geom::segments::{along, on_segment, same_length};
use plane_geom::sides::{crossing, side};
use plane_geom::triangles::separated;
use plane_geom::window::Window;
use std::cmp::Ordering;

/// A question about points.
enum Call {
    Side([Point; 3]),
    Crossing([Point; 3]),
    OnSegment([Point; 3]),
    Along([Point; 4]),
    SameLength([Point; 2]),
    Separated([Point; 3], [Point; 3]),
    Count(&'static [Point], Point),
    Member(&'static [Point], Point),
    MeetsBox([Point; 2], Window),
}

/// The side of the edge from the first point to the second on which the third is: 1 on the left, -1 on
/// the right. Here and below the points are within the bound.
fn side_of(order: Order, a: &Point, b: &Point, p: &Point) -> Option<i32> {
    if !(within(1 << 25, a) && within(1 << 25, b) && within(1 << 25, p)) {
        return None;
    }
    Some(match side(order, a, b, p) {
        Ordering::Less => -1,
        Ordering::Equal => 0,
        Ordering::Greater => 1,
    })
}

/// The crossing of the edge from the first point to the second, seen from the third.
fn crossing_of(order: Order, a: &Point, b: &Point, p: &Point) -> Option<i32> {
    if within(1 << 25, a) && within(1 << 25, b) && within(1 << 25, p) {
        Some(i32::from(crossing(order, a, b, p)))
    } else {
        None
    }
}

/// Returns 1 if the third point is on the segment between the other two, and 0 otherwise.
fn is_on(order: Order, a: &Point, b: &Point, p: &Point) -> Option<i32> {
    if within(1 << 25, a) && within(1 << 25, b) && within(1 << 25, p) {
        Some(i32::from(on_segment(order, a, b, p)))
    } else {
        None
    }
}

/// Returns 1 if the second edge lies along the first, and 0 otherwise.
fn is_along(order: Order, a: &Point, b: &Point, c: &Point, d: &Point) -> Option<i32> {
    if !(within(1 << 25, a) && within(1 << 25, b)) {
        return None;
    }
    if within(1 << 25, c) && within(1 << 25, d) {
        Some(i32::from(along(order, a, b, c, d)))
    } else {
        None
    }
}

/// Returns 1 if two differences are equally long, and 0 otherwise.
fn is_as_long(order: Order, d: &Point, e: &Point) -> Option<i32> {
    if within(1 << 8, d) && within(1 << 8, e) {
        Some(i32::from(same_length(order, d, e)))
    } else {
        None
    }
}

/// Returns 1 if two triangles are separated, and 0 otherwise.
fn are_separated(order: Order, s: &[Point; 3], t: &[Point; 3]) -> Option<i32> {
    if all_within(s) && all_within(t) {
        Some(i32::from(separated(order, s, t)))
    } else {
        None
    }
}

/// Returns true if a polygon may be tested: it has 3 to 24 vertices within the bound.
fn is_polygon(poly: &[Point]) -> bool
    ensures at_least_three { IsTrue result → 3 ≤ length poly.now }
    ensures at_most_24 { IsTrue result → length poly.now ≤ 24 }
    ensures within { IsTrue result → All (IsWithin (2 ^ 25)) poly.now }
{
    3 <= poly.len() && poly.len() <= 24 && all_within(poly)
}

/// The count of a polygon about a point.
fn count_of(order: Order, poly: &[Point], p: &Point) -> Option<i32> {
    if is_polygon(poly) && within(1 << 25, p) {
        Some(count(order, poly, p))
    } else {
        None
    }
}

/// Returns 1 if a point belongs to a polygon, and 0 otherwise.
fn is_member(order: Order, poly: &[Point], p: &Point) -> Option<i32> {
    if is_polygon(poly) && within(1 << 25, p) {
        Some(i32::from(member(order, poly, p)))
    } else {
        None
    }
}

/// Returns 1 if an edge meets an open box, and 0 otherwise.
fn meets(order: Order, a: &Point, b: &Point, window: &Window) -> Option<i32> {
    if within(1 << 25, a) && within(1 << 25, b) && within(1 << 25, &window.centre) {
        Some(i32::from(edge_meets_box(order, a, b, window)))
    } else {
        None
    }
}

/// The answer of a call, where its points are within its bounds; 1 and 0 stand for yes and no.
fn answer(order: Order, call: &Call) -> Option<i32> {
    match call {
        Call::Side([a, b, p]) => side_of(order, a, b, p),
        Call::Crossing([a, b, p]) => crossing_of(order, a, b, p),
        Call::OnSegment([a, b, p]) => is_on(order, a, b, p),
        Call::Along([a, b, c, d]) => is_along(order, a, b, c, d),
        Call::SameLength([d, e]) => is_as_long(order, d, e),
        Call::Separated(s, t) => are_separated(order, s, t),
        Call::Count(poly, p) => count_of(order, poly, p),
        Call::Member(poly, p) => is_member(order, poly, p),
        Call::MeetsBox([a, b], window) => meets(order, a, b, window),
    }
}

/// The point a0 + a1 ζ.
macro_rules! at {
    ($a0:expr, $a1:expr) => {
        Point {
            c: [$a0, $a1, 0, 0],
        }
    };
}

/// A point by its four coefficients.
macro_rules! quad {
    ($c:expr) => {
        Point { c: $c }
    };
}

/// The open box around a centre.
macro_rules! window {
    ($centre:expr, $w:expr, $h:expr) => {
        Window {
            centre: $centre,
            w: $w,
            h: $h,
        }
    };
}

/// 2^25, the bound of a coefficient.
const MOST: i64 = 33554432;

/// The ends of the real axis, its middle, and the point on the ray of ζ.
const LEFT: Point = at!(-MOST, 0);

const RIGHT: Point = at!(MOST, 0);

const MIDDLE: Point = at!(0, 0);

const ABOVE: Point = at!(0, MOST);

/// Three squares in the shape of an L.
const CHAIR: [Point; 8] = [
    at!(1, 1),
    at!(1, 2),
    at!(0, 2),
    at!(0, 1),
    at!(0, 0),
    at!(1, 0),
    at!(2, 0),
    at!(2, 1),
];

/// The half-hex, a trapezium of the triangular lattice.
const HALF_HEX: [Point; 5] = [at!(1, 0), at!(2, 0), at!(1, 1), at!(0, 1), at!(0, 0)];

/// The upper half of the plane up to the bound, as a triangle.
const UPWARD: [Point; 3] = [LEFT, RIGHT, ABOVE];

/// 2^22, a sixth of the side of the square below.
const STEP: i64 = 4194304;

/// The lattice points on the boundary of a square of six by six steps.
const SQUARE: [Point; 24] = [
    at!(0, 0),
    at!(STEP, 0),
    at!(2 * STEP, 0),
    at!(3 * STEP, 0),
    at!(4 * STEP, 0),
    at!(5 * STEP, 0),
    at!(6 * STEP, 0),
    at!(6 * STEP, STEP),
    at!(6 * STEP, 2 * STEP),
    at!(6 * STEP, 3 * STEP),
    at!(6 * STEP, 4 * STEP),
    at!(6 * STEP, 5 * STEP),
    at!(6 * STEP, 6 * STEP),
    at!(5 * STEP, 6 * STEP),
    at!(4 * STEP, 6 * STEP),
    at!(3 * STEP, 6 * STEP),
    at!(2 * STEP, 6 * STEP),
    at!(STEP, 6 * STEP),
    at!(0, 6 * STEP),
    at!(0, 5 * STEP),
    at!(0, 4 * STEP),
    at!(0, 3 * STEP),
    at!(0, 2 * STEP),
    at!(0, STEP),
];

/// Questions with one answer in each order.
static IN_EACH_ORDER: [(Call, i32); 35] = [
    (Call::Side([MIDDLE, at!(0, 1), at!(-1, 0)]), 1),
    (Call::Side([MIDDLE, at!(0, 1), at!(0, 1)]), 0),
    (Call::Side([MIDDLE, at!(0, 1), at!(1, 0)]), -1),
    (Call::Crossing([MIDDLE, at!(0, 1), at!(-1, 0)]), 1),
    (Call::Crossing([at!(0, 1), MIDDLE, at!(-1, 0)]), -1),
    (Call::Crossing([MIDDLE, at!(0, 1), at!(1, 0)]), 0),
    (Call::OnSegment([MIDDLE, at!(2, 2), at!(1, 1)]), 1),
    (Call::OnSegment([MIDDLE, at!(2, 2), at!(2, 2)]), 1),
    (Call::OnSegment([MIDDLE, at!(1, 1), at!(2, 2)]), 0),
    (Call::OnSegment([MIDDLE, at!(2, 2), at!(1, 0)]), 0),
    (Call::Along([MIDDLE, at!(2, 2), MIDDLE, at!(1, 1)]), 1),
    (Call::Along([MIDDLE, at!(2, 2), at!(1, 1), MIDDLE]), 0),
    (Call::Along([MIDDLE, at!(2, 2), at!(1, 1), at!(1, 1)]), 0),
    (Call::SameLength([at!(1, 0), at!(0, 1)]), 1),
    (Call::SameLength([at!(1, 0), at!(2, 2)]), 0),
    (
        Call::Separated(
            [MIDDLE, at!(1, 0), at!(0, 1)],
            [at!(1, 0), at!(1, 1), at!(0, 1)],
        ),
        1,
    ),
    (
        Call::Separated(
            [MIDDLE, at!(1, 0), at!(0, 1)],
            [MIDDLE, at!(1, 0), at!(0, 1)],
        ),
        0,
    ),
    // at the bound
    (Call::Side([LEFT, RIGHT, ABOVE]), 1),
    (Call::Side([RIGHT, LEFT, ABOVE]), -1),
    (Call::Crossing([RIGHT, ABOVE, MIDDLE]), 1),
    (Call::Crossing([ABOVE, LEFT, MIDDLE]), 0),
    // a lower side is held, the top isn't
    (Call::Member(&UPWARD, MIDDLE), 1),
    (Call::Count(&UPWARD, ABOVE), 0),
    (Call::OnSegment([LEFT, RIGHT, MIDDLE]), 1),
    (Call::Along([LEFT, RIGHT, MIDDLE, RIGHT]), 1),
    (Call::Along([LEFT, RIGHT, RIGHT, MIDDLE]), 0),
    (
        Call::Separated([MIDDLE, RIGHT, ABOVE], [MIDDLE, ABOVE, LEFT]),
        1,
    ),
    (Call::Separated([MIDDLE, RIGHT, ABOVE], UPWARD), 0),
    (Call::SameLength([at!(256, 0), at!(0, 256)]), 1),
    (Call::SameLength([at!(256, 0), at!(256, 256)]), 0),
    (Call::MeetsBox([LEFT, RIGHT], window!(MIDDLE, 1, 1)), 1),
    (Call::MeetsBox([RIGHT, ABOVE], window!(MIDDLE, 1, 1)), 0),
    (Call::MeetsBox([ABOVE, RIGHT], window!(RIGHT, 1, 1)), 1),
    // X(2^25 - 1) is 2 less than X(2^25): the end of the edge is on the side of the open box
    (
        Call::MeetsBox([RIGHT, RIGHT], window!(at!(MOST - 1, 0), 2, 1)),
        0,
    ),
    (
        Call::MeetsBox([LEFT, RIGHT], window!(at!(MOST - 1, 0), 2, 1)),
        1,
    ),
];

/// The far ends of an edge across the plane, and a point.
const ACROSS: [Point; 3] = [
    quad!([-MOST, MOST, MOST, -MOST]),
    quad!([MOST, -MOST, -MOST, MOST]),
    quad!([MOST, MOST, MOST, MOST]),
];

/// Questions of one order.
static IN_ONE_ORDER: [(Order, Call, i32); 34] = [
    // the chair holds its lower and left sides
    (Order::Four, Call::Member(&CHAIR, at!(0, 0)), 1),
    (Order::Four, Call::Member(&CHAIR, at!(1, 1)), 0),
    (Order::Four, Call::Member(&CHAIR, at!(2, 0)), 0),
    (Order::Four, Call::Member(&CHAIR, at!(0, 2)), 0),
    (Order::Four, Call::Count(&CHAIR, at!(0, 1)), 1),
    (
        Order::Four,
        Call::Member(&SQUARE, at!(3 * STEP, 3 * STEP)),
        1,
    ),
    (Order::Four, Call::Member(&SQUARE, MIDDLE), 1),
    (
        Order::Four,
        Call::Member(&SQUARE, at!(6 * STEP, 3 * STEP)),
        0,
    ),
    (Order::Four, Call::Member(&SQUARE, at!(MOST, 3 * STEP)), 0),
    (Order::Four, Call::Side(ACROSS), 1),
    (Order::Eight, Call::Side(ACROSS), 0),
    (Order::Ten, Call::Side(ACROSS), 0),
    // the same for the half-hex
    (Order::Six, Call::Member(&HALF_HEX, at!(0, 0)), 1),
    (Order::Six, Call::Member(&HALF_HEX, at!(1, 0)), 1),
    (Order::Six, Call::Member(&HALF_HEX, at!(2, 0)), 0),
    (Order::Six, Call::Member(&HALF_HEX, at!(0, 1)), 0),
    (Order::Six, Call::Member(&HALF_HEX, at!(-1, 1)), 0),
    (Order::Six, Call::Count(&HALF_HEX, at!(1, 0)), 1),
    (Order::Six, Call::Side([at!(2, 0), at!(1, 1), MIDDLE]), 1),
    (Order::Six, Call::Side([at!(1, 1), at!(2, 0), MIDDLE]), -1),
    (
        Order::Six,
        Call::Crossing([at!(2, 0), at!(1, 1), MIDDLE]),
        1,
    ),
    (
        Order::Six,
        Call::Crossing([at!(1, 1), at!(2, 0), MIDDLE]),
        -1,
    ),
    // 1 + ζ and 2 - ζ have the squared length 3, and 2 and 2ζ have 4
    (Order::Six, Call::SameLength([at!(1, 1), at!(2, -1)]), 1),
    (Order::Six, Call::SameLength([at!(2, 0), at!(0, 2)]), 1),
    (Order::Six, Call::SameLength([at!(1, 1), at!(2, 0)]), 0),
    // 1 + ζ is the middle of 2 and 2ζ
    (
        Order::Six,
        Call::OnSegment([at!(2, 0), at!(0, 2), at!(1, 1)]),
        1,
    ),
    (
        Order::Six,
        Call::OnSegment([at!(2, 0), at!(0, 2), at!(2, -1)]),
        0,
    ),
    (
        Order::Six,
        Call::Along([at!(2, 0), at!(0, 2), at!(1, 1), at!(0, 2)]),
        1,
    ),
    (
        Order::Six,
        Call::Along([at!(2, 0), at!(0, 2), at!(0, 2), at!(1, 1)]),
        0,
    ),
    // from the centre of the box; along its side
    (
        Order::Four,
        Call::MeetsBox([at!(1, 1), at!(1, 2)], window!(at!(1, 1), 2, 1)),
        1,
    ),
    (
        Order::Four,
        Call::MeetsBox([at!(0, 0), at!(1, 0)], window!(at!(1, 1), 2, 1)),
        0,
    ),
    // through the corner of the box, and by less than a thousandth below and above it
    (
        Order::Eight,
        Call::MeetsBox([quad!([50, -59, 35, 11]), at!(2, 0)], window!(MIDDLE, 2, 1)),
        0,
    ),
    (
        Order::Eight,
        Call::MeetsBox(
            [quad!([50, -636, 851, -566]), at!(2, 0)],
            window!(MIDDLE, 2, 1),
        ),
        1,
    ),
    (
        Order::Eight,
        Call::MeetsBox(
            [quad!([50, 518, -781, 588]), at!(2, 0)],
            window!(MIDDLE, 2, 1),
        ),
        0,
    ),
];

/// Notes the first question that has another answer.
fn note_answers(wrong: &mut Wrong) {
    for order in &[Order::Four, Order::Six, Order::Eight, Order::Ten] {
        for (row, (call, wanted)) in IN_EACH_ORDER.iter().enumerate() {
            wrong.note("in each order", row, answer(*order, call) == Some(*wanted));
        }
    }
    for (row, (order, call, wanted)) in IN_ONE_ORDER.iter().enumerate() {
        wrong.note("in one order", row, answer(*order, call) == Some(*wanted));
    }
}

/// The first row that comes out otherwise.
fn first_wrong() -> Wrong {
    let mut wrong = NONE;
    note_numbers(&mut wrong);
    note_points(&mut wrong);
    note_answers(&mut wrong);
    wrong
}

#[test]
fn numbers_points_and_plane(rt: HostRuntime) {
    first_wrong().assert_none(&rt);
}

#[test]
fn laws(_rt: HostRuntime) {
    crossing_law(Order::Ten);
    fan_law(Order::Eight);
    triangle_law(Order::Four);
    segment_law(Order::Four);
    motion_law(Order::Ten);
    factor_law(Order::Eight);
    right_side_law(Order::Four);
    product_law(Order::Six);
}
