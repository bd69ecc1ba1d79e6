//! Points and motions. In order six ζ² is ζ - 1 and ζ³ is -1.
ghost use Rattle.std.specs.Prelude.{◌^◌, ◌<◌, IsTrue};
ghost use Rattle.cyclo_points.specs.Order.{points_of};
ghost use Rattle.cyclo_points.specs.Point.{IsWithin};

use crate::sizes::within;
use crate::wrong::Wrong;
use cyclo_points::arithmetic::{add, refused, sub};
use cyclo_points::coordinates::{conj, reduce};
use cyclo_points::motion::Motion;
use cyclo_points::movement::{apply, compose, inverse};
use cyclo_points::order::Order;
use cyclo_points::point::Point;
use cyclo_points::product::mul;
use cyclo_points::rotation::turn;
use cyclo_points::{divisors_law, placement_law, points_law};

/// The coefficients of a point.
type Quad = [i64; 4];

/// A motion: its turn, and the coefficients of its shift.
type Moved = (u8, Quad);

/// A call that gives a point or a motion.
enum Call {
    Sum(Quad, Quad),
    Difference(Quad, Quad),
    Product(Order, Quad, Quad),
    Turned(Order, u8, Quad),
    Conjugate(Order, Quad),
    Reduced(Order, Quad),
    Applied(Order, Moved, Quad),
    Composed(Order, Moved, Moved),
    Inverse(Order, Moved),
}

/// The sum, of points within the bound.
fn sum(p: &Point, q: &Point) -> Option<Point> {
    if within(1 << 40, p) && within(1 << 40, q) {
        Some(add(p, q))
    } else {
        None
    }
}

/// The difference, of points within the bound.
fn difference(p: &Point, q: &Point) -> Option<Point> {
    if within(1 << 40, p) && within(1 << 40, q) {
        Some(sub(p, q))
    } else {
        None
    }
}

/// The product, of points within the bounds.
fn product(order: Order, p: &Point, q: &Point) -> Option<Point> {
    if within(1 << 32, p) && within(1 << 16, q) {
        Some(mul(order, p, q))
    } else {
        None
    }
}

/// The point turned, where it is within the bound and there is such a turn.
fn turned(order: Order, k: u8, p: &Point) -> Option<Point> {
    if k < order.n() && within(1 << 40, p) {
        Some(turn(order, k, p))
    } else {
        None
    }
}

/// The conjugate, of a point within the bound.
fn conjugate(order: Order, p: &Point) -> Option<Point> {
    if within(1 << 40, p) {
        Some(conj(order, p))
    } else {
        None
    }
}

/// The point reduced to the order, where it is within the bound.
fn reduced(order: Order, p: &Point) -> Option<Point> {
    if within(1 << 40, p) {
        Some(reduce(order, p))
    } else {
        None
    }
}

/// Returns true if a motion is one of the order, within the bound.
fn fits(order: Order, m: &Motion) -> bool
    ensures below_order { IsTrue result → m.now.turn < (points_of order).order }
    ensures bounded { IsTrue result → IsWithin (2 ^ 38) m.now.shift }
{
    m.turn < order.n() && within(1 << 38, &m.shift)
}

/// The point that a motion makes of a point, where both are within the bounds.
fn applied(order: Order, m: &Motion, p: &Point) -> Option<Point> {
    if fits(order, m) && within(1 << 38, p) {
        Some(apply(order, m, p))
    } else {
        None
    }
}

/// The second motion and then the first, where both are within the bounds.
fn composed(order: Order, f: &Motion, g: &Motion) -> Option<Motion> {
    if fits(order, f) && fits(order, g) {
        Some(compose(order, f, g))
    } else {
        None
    }
}

/// The motion back, of one within the bounds.
fn back(order: Order, m: &Motion) -> Option<Motion> {
    if fits(order, m) {
        Some(inverse(order, m))
    } else {
        None
    }
}

/// A motion by its numbers.
fn motion(m: &Moved) -> Motion {
    Motion {
        turn: m.0,
        shift: Point { c: m.1 },
    }
}

/// The motion that only shifts.
fn shifted(p: Option<Point>) -> Option<Motion> {
    Some(Motion { turn: 0, shift: p? })
}

/// What a call gives, where its numbers are within its bounds; a point as the motion that shifts by it.
fn given(call: &Call) -> Option<Motion> {
    match call {
        Call::Sum(p, q) => shifted(sum(&Point { c: *p }, &Point { c: *q })),
        Call::Difference(p, q) => shifted(difference(&Point { c: *p }, &Point { c: *q })),
        Call::Product(order, p, q) => shifted(product(*order, &Point { c: *p }, &Point { c: *q })),
        Call::Turned(order, k, p) => shifted(turned(*order, *k, &Point { c: *p })),
        Call::Conjugate(order, p) => shifted(conjugate(*order, &Point { c: *p })),
        Call::Reduced(order, p) => shifted(reduced(*order, &Point { c: *p })),
        Call::Applied(order, m, p) => shifted(applied(*order, &motion(m), &Point { c: *p })),
        Call::Composed(order, f, g) => composed(*order, &motion(f), &motion(g)),
        Call::Inverse(order, m) => back(*order, &motion(m)),
    }
}

/// The bounds of the calls on points, of motions, and of the factors of a product.
const MOST: i64 = 1 << 40;

const FAR: i64 = 1 << 38;

const WIDE: i64 = 1 << 32;

const SHORT: i64 = 1 << 16;

const UNIT: i64 = 1 << 48;

/// 1, and ζ + ζ^-1 + 1 of order eight and ζ + ζ^-1 of order ten, which are real.
const ONE: Quad = [1, 0, 0, 0];

const SILVER: Quad = [1, 1, 0, -1];

const GOLDEN: Quad = [1, 0, 1, -1];

/// Calls and what they give.
const ROWS: [(Call, Moved); 54] = [
    (
        Call::Sum([1, -2, 3, 40], [10, 20, -3, 4]),
        (0, [11, 18, 0, 44]),
    ),
    (
        Call::Difference([1, -2, 3, 40], [10, 20, -3, 4]),
        (0, [-9, -22, 6, 36]),
    ),
    (
        Call::Sum([MOST, MOST, -MOST, MOST], [MOST, MOST, -MOST, MOST]),
        (0, [MOST + MOST, MOST + MOST, -MOST - MOST, MOST + MOST]),
    ),
    (
        Call::Difference([MOST, MOST, -MOST, MOST], [MOST, MOST, -MOST, MOST]),
        (0, [0, 0, 0, 0]),
    ),
    (
        Call::Product(Order::Four, [1, 1, 0, 0], [1, 1, 0, 0]),
        (0, [0, 2, 0, 0]),
    ),
    (
        Call::Product(Order::Eight, SILVER, SILVER),
        (0, [3, 2, 0, -2]),
    ),
    (
        Call::Product(Order::Ten, GOLDEN, GOLDEN),
        (0, [2, 0, 1, -1]),
    ),
    (
        Call::Product(Order::Four, [WIDE, -WIDE, 0, 0], [SHORT, SHORT, 0, 0]),
        (0, [UNIT + UNIT, 0, 0, 0]),
    ),
    // 1 + ζ + ζ² + ζ³ has the square 1 + 2ζ + 3ζ² + 4ζ³ + 3ζ⁴ + 2ζ⁵ + ζ⁶
    (
        Call::Product(Order::Eight, [WIDE; 4], [SHORT; 4]),
        (0, [-2 * UNIT, 0, 2 * UNIT, 4 * UNIT]),
    ),
    (
        Call::Product(Order::Ten, [WIDE; 4], [SHORT; 4]),
        (0, [-4 * UNIT, 4 * UNIT, 0, 7 * UNIT]),
    ),
    (Call::Turned(Order::Four, 2, ONE), (0, [-1, 0, 0, 0])),
    (Call::Turned(Order::Eight, 3, ONE), (0, [0, 0, 0, 1])),
    (Call::Turned(Order::Eight, 4, ONE), (0, [-1, 0, 0, 0])),
    (Call::Turned(Order::Ten, 2, ONE), (0, [0, 0, 1, 0])),
    (Call::Turned(Order::Ten, 4, ONE), (0, [-1, 1, -1, 1])),
    (Call::Turned(Order::Ten, 5, ONE), (0, [-1, 0, 0, 0])),
    // i³ is -i
    (
        Call::Turned(Order::Four, 3, [MOST, -MOST, 0, 0]),
        (0, [-MOST, -MOST, 0, 0]),
    ),
    // ζ⁵ is -ζ, and ζ⁴ is -1
    (
        Call::Turned(Order::Eight, 5, [MOST, -MOST, MOST, MOST]),
        (0, [MOST, -MOST, MOST, -MOST]),
    ),
    // ζ⁴ is ζ³ - ζ² + ζ - 1
    (
        Call::Turned(Order::Ten, 1, [MOST, -MOST, MOST, MOST]),
        (0, [-MOST, 2 * MOST, -2 * MOST, 2 * MOST]),
    ),
    (
        Call::Conjugate(Order::Ten, [MOST, MOST, -MOST, MOST]),
        (0, [MOST + MOST, -MOST, 0, 0]),
    ),
    (
        Call::Reduced(Order::Four, [1, 2, 3, 4]),
        (0, [-2, -2, 0, 0]),
    ),
    (Call::Reduced(Order::Eight, [1, 2, 3, 4]), (0, [1, 2, 3, 4])),
    (Call::Reduced(Order::Ten, [1, 2, 3, 4]), (0, [1, 2, 3, 4])),
    (
        Call::Reduced(Order::Four, [MOST, -MOST, -MOST, MOST]),
        (0, [MOST + MOST, -MOST - MOST, 0, 0]),
    ),
    // z ↦ iz + 4 and z ↦ iz + 1 + i
    (
        Call::Composed(Order::Four, (1, [4, 0, 0, 0]), (1, [1, 1, 0, 0])),
        (2, [3, 1, 0, 0]),
    ),
    (
        Call::Composed(Order::Four, (1, [1, 1, 0, 0]), (1, [4, 0, 0, 0])),
        (2, [1, 5, 0, 0]),
    ),
    (
        Call::Applied(Order::Four, (1, [1, 1, 0, 0]), ONE),
        (0, [1, 2, 0, 0]),
    ),
    (
        Call::Applied(Order::Four, (2, [3, 1, 0, 0]), ONE),
        (0, [2, 1, 0, 0]),
    ),
    (
        Call::Inverse(Order::Four, (1, [4, 0, 0, 0])),
        (3, [0, 4, 0, 0]),
    ),
    // ζ^-1 is -ζ³ in order eight, and 1 - ζ + ζ² - ζ³ in order ten
    (Call::Inverse(Order::Eight, (1, ONE)), (7, [0, 0, 0, 1])),
    (Call::Inverse(Order::Ten, (1, ONE)), (9, [-1, 1, -1, 1])),
    (
        Call::Inverse(Order::Ten, (0, [0, 0, 0, 0])),
        (0, [0, 0, 0, 0]),
    ),
    (
        Call::Applied(Order::Ten, (1, [FAR; 4]), [FAR; 4]),
        (0, [0, 3 * FAR, FAR, 3 * FAR]),
    ),
    (
        Call::Composed(Order::Ten, (1, [FAR; 4]), (1, [FAR; 4])),
        (2, [0, 3 * FAR, FAR, 3 * FAR]),
    ),
    (Call::Turned(Order::Six, 1, ONE), (0, [0, 1, 0, 0])),
    (Call::Turned(Order::Six, 2, ONE), (0, [-1, 1, 0, 0])),
    (Call::Turned(Order::Six, 3, ONE), (0, [-1, 0, 0, 0])),
    (Call::Turned(Order::Six, 4, ONE), (0, [0, -1, 0, 0])),
    (Call::Turned(Order::Six, 5, ONE), (0, [1, -1, 0, 0])),
    (
        Call::Turned(Order::Six, 1, [MOST, MOST, 0, 0]),
        (0, [-MOST, 2 * MOST, 0, 0]),
    ),
    (
        Call::Turned(Order::Six, 2, [MOST, MOST, 0, 0]),
        (0, [-2 * MOST, MOST, 0, 0]),
    ),
    (
        Call::Turned(Order::Six, 4, [MOST, MOST, 0, 0]),
        (0, [MOST, -2 * MOST, 0, 0]),
    ),
    (
        Call::Conjugate(Order::Six, [0, 1, 0, 0]),
        (0, [1, -1, 0, 0]),
    ),
    (
        Call::Conjugate(Order::Six, [MOST, MOST, 0, 0]),
        (0, [2 * MOST, -MOST, 0, 0]),
    ),
    // 1 + ζ has the squared length 3: its square is 3ζ, and its conjugate 2 - ζ
    (
        Call::Product(Order::Six, [1, 1, 0, 0], [1, 1, 0, 0]),
        (0, [0, 3, 0, 0]),
    ),
    (
        Call::Product(Order::Six, [1, 1, 0, 0], [2, -1, 0, 0]),
        (0, [3, 0, 0, 0]),
    ),
    (
        Call::Product(Order::Six, [WIDE, WIDE, 0, 0], [SHORT, SHORT, 0, 0]),
        (0, [0, 3 * UNIT, 0, 0]),
    ),
    (Call::Reduced(Order::Six, [1, 2, 3, 4]), (0, [-6, 5, 0, 0])),
    (
        Call::Reduced(Order::Six, [MOST, MOST, -MOST, -MOST]),
        (0, [3 * MOST, 0, 0, 0]),
    ),
    (
        Call::Reduced(Order::Six, [-MOST, -MOST, -MOST, MOST]),
        (0, [-MOST, -2 * MOST, 0, 0]),
    ),
    // z ↦ ζz + 1, and z ↦ ζ⁵z - ζ⁵
    (Call::Inverse(Order::Six, (1, ONE)), (5, [-1, 1, 0, 0])),
    (
        Call::Composed(Order::Six, (1, ONE), (5, [-1, 1, 0, 0])),
        (0, [0, 0, 0, 0]),
    ),
    (
        Call::Applied(Order::Six, (1, ONE), [2, 2, 0, 0]),
        (0, [-1, 4, 0, 0]),
    ),
    // child 0 of child 1 of the half-hex, whose factor is 2
    (
        Call::Composed(Order::Six, (2, [4, 0, 0, 0]), (0, ONE)),
        (2, [3, 1, 0, 0]),
    ),
];

/// The orders, with their numbers of turns.
const ORDERS: [(Order, u8); 4] = [
    (Order::Four, 4),
    (Order::Six, 6),
    (Order::Eight, 8),
    (Order::Ten, 10),
];

/// Returns true if each turn and one more is the next, and the conjugate of each power of ζ the power back.
fn goes_round(order: Order, n: u8) -> bool {
    let one = Point { c: ONE };
    let p = Point { c: [3, -5, 0, 0] };
    for k in 0..n {
        let next = turned(order, (k + 1) % n, &p);
        let again = turned(order, k, &p).and_then(|q| turned(order, 1, &q));
        let power = turned(order, k, &one).and_then(|q| conjugate(order, &q));
        if next.is_none() || again != next || power != turned(order, (n - k) % n, &one) {
            return false;
        }
    }
    order.n() == n
}

/// The greatest coefficient that is not refused.
const LIMIT: i64 = 1 << 24;

/// Points, and whether they are refused: each coefficient within the limit, and one above or below.
const REFUSED: [(Quad, bool); 9] = [
    ([LIMIT, -LIMIT, LIMIT, -LIMIT], false),
    ([LIMIT + 1, -LIMIT, LIMIT, -LIMIT], true),
    ([-LIMIT - 1, -LIMIT, LIMIT, -LIMIT], true),
    ([LIMIT, LIMIT + 1, LIMIT, -LIMIT], true),
    ([LIMIT, -LIMIT - 1, LIMIT, -LIMIT], true),
    ([LIMIT, -LIMIT, LIMIT + 1, -LIMIT], true),
    ([LIMIT, -LIMIT, -LIMIT - 1, -LIMIT], true),
    ([LIMIT, -LIMIT, LIMIT, LIMIT + 1], true),
    ([LIMIT, -LIMIT, LIMIT, -LIMIT - 1], true),
];

/// Notes the calls that give something else, the points that are wrongly refused or not, and the orders
/// whose turns don't go round.
pub fn note_points(wrong: &mut Wrong) {
    points_law(Order::Ten);
    placement_law(Order::Eight);
    divisors_law(Order::Six);
    for (row, (call, wanted)) in ROWS.iter().enumerate() {
        wrong.note("points", row, given(call) == Some(motion(wanted)));
    }
    for (row, (c, wanted)) in REFUSED.iter().enumerate() {
        wrong.note("refused points", row, refused(&Point { c: *c }) == *wanted);
    }
    for (row, (order, n)) in ORDERS.iter().enumerate() {
        wrong.note("orders", row, goes_round(*order, *n));
    }
}
