//! Numbers of the rings of coordinates: signs, sums, products and roundings. The numbers are convergents
//! of φ (Fibonacci's) and of √2 (Pell's), which lie next to them on both sides, and the decimals of both.
use crate::sizes::{real_within, within};
use crate::wrong::Wrong;
use cyclo_points::coordinates::{x, y};
use cyclo_points::order::Order;
use cyclo_points::point::Point;
use cyclo_points::real::Real;
use cyclo_points::real_product::rmul;
use cyclo_points::real_sum::{radd, rsub};
use cyclo_points::sign::sign;
use cyclo_points::thousandths::floor_thousandths;
use std::cmp::Ordering;

/// The two parts of a number.
type Pair = (i128, i128);

/// A call that gives a number.
enum Call {
    X(Order, [i64; 4]),
    Y(Order, [i64; 4]),
    Sum(Pair, Pair),
    Difference(Pair, Pair),
    Product(Order, Pair, Pair),
    Thousandths(Order, Pair),
}

/// The coordinate X, of a point within the bound.
fn x_of(order: Order, p: &Point) -> Option<Real> {
    if within(1 << 40, p) {
        Some(x(order, p))
    } else {
        None
    }
}

/// The coordinate Y, of a point within the bound.
fn y_of(order: Order, p: &Point) -> Option<Real> {
    if within(1 << 40, p) {
        Some(y(order, p))
    } else {
        None
    }
}

/// The sum, of numbers within the bound.
fn sum(r: &Real, s: &Real) -> Option<Real> {
    if real_within(1 << 100, r) && real_within(1 << 100, s) {
        Some(radd(r, s))
    } else {
        None
    }
}

/// The difference, of numbers within the bound.
fn difference(r: &Real, s: &Real) -> Option<Real> {
    if real_within(1 << 100, r) && real_within(1 << 100, s) {
        Some(rsub(r, s))
    } else {
        None
    }
}

/// The product, of numbers within the bound.
fn product(order: Order, r: &Real, s: &Real) -> Option<Real> {
    if real_within(1 << 60, r) && real_within(1 << 60, s) {
        Some(rmul(order, r, s))
    } else {
        None
    }
}

/// The thousandths, as a number with no second part, of a number within the bound.
fn thousandths(order: Order, r: &Real) -> Option<Real> {
    if real_within(1 << 30, r) {
        let a = floor_thousandths(order, r);
        Some(Real { a, b: 0 })
    } else {
        None
    }
}

/// The sign, of a number within the bound.
fn sign_of(order: Order, r: &Real) -> Option<Ordering> {
    if real_within(1 << 61, r) {
        Some(sign(order, r))
    } else {
        None
    }
}

/// A number by its parts.
fn real(pair: &Pair) -> Real {
    Real {
        a: pair.0,
        b: pair.1,
    }
}

/// What a call gives, where its numbers are within its bounds.
fn given(call: &Call) -> Option<Real> {
    match call {
        Call::X(order, c) => x_of(*order, &Point { c: *c }),
        Call::Y(order, c) => y_of(*order, &Point { c: *c }),
        Call::Sum(r, s) => sum(&real(r), &real(s)),
        Call::Difference(r, s) => difference(&real(r), &real(s)),
        Call::Product(order, r, s) => product(*order, &real(r), &real(s)),
        Call::Thousandths(order, r) => thousandths(*order, &real(r)),
    }
}

/// 2^40, the bound of a point's coefficients.
const MOST: i64 = 1099511627776;

/// The point with the largest coordinates.
const FAR: [i64; 4] = [MOST, MOST, -MOST, MOST];

/// The bounds of sums, of products and of thousandths: 2^100, 2^60 and 2^30; and 2^120.
const SUM: i128 = 1267650600228229401496703205376;

const FACTOR: i128 = 1152921504606846976;

const SHORT: i128 = 1073741824;

const SQUARE: i128 = 1329227995784915872903807060280344576;

/// Calls and what they give.
const ROWS: [(Call, Pair); 55] = [
    // ζ + ζ^-1 of order ten, and 1 + ζ + ζ^-1 of order eight, are real
    (Call::X(Order::Ten, [1, 0, 1, -1]), (0, 2)),
    (Call::Y(Order::Ten, [1, 0, 1, -1]), (0, 0)),
    (Call::X(Order::Eight, [1, 1, 0, -1]), (2, 2)),
    (Call::Y(Order::Eight, [1, 1, 0, -1]), (0, 0)),
    (Call::X(Order::Four, [0, 1, 0, 0]), (0, 0)),
    (Call::X(Order::Eight, [0, 1, 0, 0]), (0, 1)),
    (Call::X(Order::Ten, [0, 1, 0, 0]), (0, 1)),
    (Call::Y(Order::Four, [0, 1, 0, 0]), (1, 0)),
    (Call::Y(Order::Eight, [0, 1, 0, 0]), (1, 0)),
    (Call::Y(Order::Ten, [0, 1, 0, 0]), (1, 0)),
    (Call::X(Order::Ten, FAR), (4398046511104, -1099511627776)),
    (Call::Y(Order::Ten, FAR), (1099511627776, 0)),
    (Call::X(Order::Eight, FAR), (2199023255552, 0)),
    (Call::Y(Order::Eight, FAR), (2199023255552, -1099511627776)),
    (Call::Sum((SUM, -SUM), (SUM, -SUM)), (2 * SUM, -2 * SUM)),
    (Call::Difference((SUM, -SUM), (SUM, -SUM)), (0, 0)),
    (
        Call::Difference((SUM, -SUM), (-SUM, SUM)),
        (2 * SUM, -2 * SUM),
    ),
    // φ^-87 and φ^87
    (
        Call::Product(
            Order::Ten,
            (-1100087778366101931, 679891637638612258),
            (420196140727489673, 679891637638612258),
        ),
        (1, 0),
    ),
    // φ^-35 and φ^35
    (
        Call::Product(Order::Ten, (-14930352, 9227465), (5702887, 9227465)),
        (1, 0),
    ),
    // p - q√2 and p + q√2, where p² - 2q² is -1
    (
        Call::Product(
            Order::Eight,
            (489133282872437279, -345869461223138161),
            (489133282872437279, 345869461223138161),
        ),
        (-1, 0),
    ),
    (Call::Product(Order::Eight, (0, 1), (0, 1)), (2, 0)),
    (Call::Product(Order::Ten, (0, 1), (0, 1)), (1, 1)),
    (
        Call::Product(Order::Eight, (FACTOR, FACTOR), (FACTOR, FACTOR)),
        (3 * SQUARE, 2 * SQUARE),
    ),
    (
        Call::Product(Order::Ten, (FACTOR, FACTOR), (FACTOR, FACTOR)),
        (2 * SQUARE, 3 * SQUARE),
    ),
    (
        Call::Product(Order::Four, (-FACTOR, 0), (-FACTOR, 0)),
        (SQUARE, 0),
    ),
    (Call::Product(Order::Four, (7, 0), (-8, 0)), (-56, 0)),
    (Call::Thousandths(Order::Ten, (0, 1)), (1618, 0)),
    (Call::Thousandths(Order::Ten, (0, -1)), (-1619, 0)),
    (Call::Thousandths(Order::Eight, (0, -1)), (-1415, 0)),
    (Call::Thousandths(Order::Eight, (-3, 2)), (-172, 0)),
    (Call::Thousandths(Order::Four, (-2, 0)), (-2000, 0)),
    (Call::Thousandths(Order::Eight, (-2, 0)), (-2000, 0)),
    (Call::Thousandths(Order::Ten, (-2, 0)), (-2000, 0)),
    (
        Call::Thousandths(Order::Eight, (SHORT, SHORT)),
        (2592242073988, 0),
    ),
    (
        Call::Thousandths(Order::Ten, (SHORT, SHORT)),
        (2811092590374, 0),
    ),
    (
        Call::Thousandths(Order::Eight, (-SHORT, -SHORT)),
        (-2592242073989, 0),
    ),
    (
        Call::Thousandths(Order::Ten, (-SHORT, -SHORT)),
        (-2811092590375, 0),
    ),
    (
        Call::Thousandths(Order::Eight, (SHORT, -SHORT)),
        (-444758425989, 0),
    ),
    (
        Call::Thousandths(Order::Ten, (SHORT, -SHORT)),
        (-663608942375, 0),
    ),
    (
        Call::Thousandths(Order::Four, (SHORT, 0)),
        (1073741824000, 0),
    ),
    (Call::Sum((1, 2), (3, 4)), (4, 6)),
    (Call::X(Order::Six, [3, -5, 0, 0]), (1, 0)),
    (Call::Y(Order::Six, [3, -5, 0, 0]), (-5, 0)),
    (Call::X(Order::Six, [MOST, MOST, 0, 0]), (3298534883328, 0)),
    (Call::Y(Order::Six, [MOST, MOST, 0, 0]), (1099511627776, 0)),
    (Call::Product(Order::Six, (1, 0), (-2, 0)), (-2, 0)),
    (Call::Thousandths(Order::Six, (-2, 0)), (-2000, 0)),
    // on both sides of the size up to which one product of words gives them
    (Call::Thousandths(Order::Eight, (-7, 32768)), (46333950, 0)),
    (Call::Thousandths(Order::Eight, (-7, 32769)), (46335364, 0)),
    (
        Call::Thousandths(Order::Eight, (-7, -32768)),
        (-46347951, 0),
    ),
    (
        Call::Thousandths(Order::Eight, (-7, -32769)),
        (-46349365, 0),
    ),
    (Call::Thousandths(Order::Ten, (-7, 32768)), (53012737, 0)),
    (Call::Thousandths(Order::Ten, (-7, 32769)), (53014355, 0)),
    (Call::Thousandths(Order::Ten, (-7, -32768)), (-53026738, 0)),
    (Call::Thousandths(Order::Ten, (-7, -32769)), (-53028356, 0)),
];

/// 2^61, the bound of a number whose sign is asked, and 2^25, up to which a number is short.
const SIGNED: i128 = 2305843009213693952;

const LAST_SHORT: i128 = 33554432;

/// Numbers and their signs: -1, 0 or 1.
const SIGNS: [(Order, Pair, Ordering); 24] = [
    (Order::Ten, (-987, 610), Ordering::Greater),
    (Order::Ten, (-1597, 987), Ordering::Less),
    // the last of two short parts, and the first of a wide one
    (Order::Ten, (-24157817, 14930352), Ordering::Less),
    (Order::Ten, (-39088169, 24157817), Ordering::Greater),
    (
        Order::Ten,
        (-1100087778366101931, 679891637638612258),
        Ordering::Greater,
    ),
    (
        Order::Ten,
        (-1779979416004714189, 1100087778366101931),
        Ordering::Less,
    ),
    (
        Order::Ten,
        (1779979416004714189, -1100087778366101931),
        Ordering::Greater,
    ),
    (Order::Eight, (-3, 2), Ordering::Less),
    (Order::Eight, (-7, 5), Ordering::Greater),
    (Order::Eight, (0, 0), Ordering::Equal),
    // the last of two short parts, and the first of a wide one
    (Order::Eight, (-22619537, 15994428), Ordering::Less),
    (Order::Eight, (-54608393, 38613965), Ordering::Greater),
    (
        Order::Eight,
        (-489133282872437279, 345869461223138161),
        Ordering::Greater,
    ),
    (
        Order::Eight,
        (-1180872205318713601, 835002744095575440),
        Ordering::Less,
    ),
    (Order::Eight, (SIGNED, SIGNED), Ordering::Greater),
    (Order::Ten, (SIGNED, SIGNED), Ordering::Greater),
    (Order::Eight, (SIGNED, -SIGNED), Ordering::Less),
    (Order::Ten, (SIGNED, -SIGNED), Ordering::Less),
    (Order::Four, (-SIGNED, 0), Ordering::Less),
    (Order::Eight, (LAST_SHORT, -LAST_SHORT), Ordering::Less),
    (Order::Ten, (LAST_SHORT, -LAST_SHORT), Ordering::Less),
    (Order::Six, (-2, 0), Ordering::Less),
    (Order::Six, (0, 0), Ordering::Equal),
    (Order::Six, (SIGNED, 0), Ordering::Greater),
];

/// Notes the calls that give something else, and the signs that are others.
pub fn note_numbers(wrong: &mut Wrong) {
    for (row, (call, wanted)) in ROWS.iter().enumerate() {
        wrong.note("numbers", row, given(call) == Some(real(wanted)));
    }
    for (row, (order, pair, wanted)) in SIGNS.iter().enumerate() {
        let sign = sign_of(*order, &real(pair));
        wrong.note("signs", row, sign == Some(*wanted));
    }
}
