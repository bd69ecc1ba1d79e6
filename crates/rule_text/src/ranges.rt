//! The ranges of numbers, and what a number within its range stands for. Each call returns None for a number
//! out of range.
ghost use Rattle.std.specs.Prelude.{◌≡◌, All, length, map, option_map, IfOk};
ghost use Rattle.rule_model.specs.Views.{as_child};
ghost use Rattle.rule_text.specs.Forms.{each};
ghost use Rattle.rule_text.specs.Ranges.{number_below, format_of, shared_order_of, order_of, file_point, child_in_row};

use cyclo_points::order::Order;
use cyclo_points::point::Point;
use rule_model::child::Child;
use rule_model::edition::Edition;
use rule_model::small::is_small;
use std::alloc::Global;
use tile_shape::no_memory::NoMemory;

/// Returns the edition whose format has this number, 1 or 2.
pub(crate) fn format_of(number: i64) -> Option<Edition>
    ensures { result ≡ format_of number }
{
    if number == 1 {
        Some(Edition::One)
    } else if number == 2 {
        Some(Edition::Two)
    } else {
        None
    }
}

/// Returns the order n of this number, if the edition has it.
pub(crate) fn order_of(edition: Edition, number: i64) -> Option<Order>
    ensures { result ≡ order_of edition number }
{
    match edition {
        Edition::One => shared_order_of(number),
        Edition::Two => {
            if number == 6 {
                Some(Order::Six)
            } else {
                shared_order_of(number)
            }
        }
    }
}

/// Returns the order n of this number, if both editions have it.
fn shared_order_of(number: i64) -> Option<Order>
    ensures { result ≡ shared_order_of number }
{
    if number == 4 {
        Some(Order::Four)
    } else if number == 8 {
        Some(Order::Eight)
    } else if number == 10 {
        Some(Order::Ten)
    } else {
        None
    }
}

/// Returns the number, if it is at least 0 and below the limit.
pub(crate) fn number_below(number: i64, limit: u8) -> Option<u8>
    ensures { result ≡ number_below limit number }
{
    if 0 <= number && number < i64::from(limit) {
        Some(number as u8)
    } else {
        None
    }
}

/// Returns the numbers, if each is at least 0 and below the limit.
pub(crate) fn numbers_below(
    alloc: Global,
    numbers: &[i64],
    limit: u8,
) -> Result<Option<Vec<u8>>, NoMemory>
    ensures { IfOk result (λ found. option_map (λ v. v.items) found ≡ each (number_below limit) numbers.now) }
{
    let mut small = Vec::with_capacity(alloc, numbers.len())?;
    for number in numbers {
        let Some(found) = number_below(*number, limit) else {
            return Ok(None);
        };
        small.push(found)?;
    }
    Ok(Some(small))
}

/// Returns the point of the order with these four coefficients, if each is in range.
pub(crate) fn point_of(order: Order, numbers: &[i64]) -> Option<Point>
    requires { length numbers.now ≡ 4 }
    ensures { result ≡ file_point order numbers.now }
{
    let point = Point {
        c: [numbers[0], numbers[1], numbers[2], numbers[3]],
    };
    if is_small(order, &point) {
        Some(point)
    } else {
        None
    }
}

/// Returns the points of the order with these rows of four coefficients, if each is in range.
pub(crate) fn points_of(
    alloc: Global,
    order: Order,
    rows: &[Vec<i64>],
) -> Result<Option<Vec<Point>>, NoMemory>
    requires { All (λ row. length row.items ≡ 4) rows.now }
    ensures { IfOk result (λ found. option_map (λ v. v.items) found ≡ each (λ row. file_point order row.items)
        rows.now) }
{
    let mut points = Vec::with_capacity(alloc, rows.len())?;
    for row in rows {
        let Some(point) = point_of(order, row.as_slice()) else {
            return Ok(None);
        };
        points.push(point)?;
    }
    Ok(Some(points))
}

/// Returns the child with these six numbers, if each is in range: kind, turn, and the four coefficients of
/// the shift.
fn child_of(order: Order, numbers: &[i64]) -> Option<Child>
    requires { length numbers.now ≡ 6 }
    ensures { option_map as_child result ≡ child_in_row order numbers.now }
{
    let kind = number_below(numbers[0], 16)?;
    let turn = number_below(numbers[1], order.n())?;
    let shift = point_of(order, &numbers[2..])?;
    Some(Child { kind, turn, shift })
}

/// Returns the children with these rows of six numbers, if each is in range.
pub(crate) fn children_of(
    alloc: Global,
    order: Order,
    rows: &[Vec<i64>],
) -> Result<Option<Vec<Child>>, NoMemory>
    requires { All (λ row. length row.items ≡ 6) rows.now }
    ensures { IfOk result (λ found. option_map (λ v. map as_child v.items) found ≡ each
        (λ row. child_in_row order row.items) rows.now) }
{
    let mut children = Vec::with_capacity(alloc, rows.len())?;
    for row in rows {
        let Some(child) = child_of(order, row.as_slice()) else {
            return Ok(None);
        };
        children.push(child)?;
    }
    Ok(Some(children))
}
