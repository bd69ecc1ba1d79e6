//! Reads the value of each key. A call that reads one returns `Missing`, `WrongType` or `OutOfRange`, with
//! the key, if the value is missing, malformed or out of range. `NoMemory` means that memory ran out.
ghost use Rattle.std.specs.Prelude.{◌≡◌, codes, map, option_map, Some};
ghost use Rattle.toml.specs.Data.{as_integer, get_member};
ghost use Rattle.toml.specs.View.{view, table_view};
ghost use Rattle.rule_model.specs.Views.{as_child};
ghost use Rattle.rule_text.specs.Agrees.{ReadsAs};
ghost use Rattle.rule_text.specs.Forms.{each, integer_list, row, rows, tables};
ghost use Rattle.rule_text.specs.Ranges.{number_below, format_of, order_of, file_point, child_in_row};
ghost use Rattle.rule_text.specs.Steps.{value_at};

use crate::key::Key;
use crate::text_fault::TextFault;
use crate::{forms, ranges};
use cyclo_points::order::Order;
use cyclo_points::point::Point;
use rule_model::child::Child;
use rule_model::edition::Edition;
use std::alloc::Global;
use toml::{Table, Value};

/// The number of edge types that a file may name. They are numbered from 0 to 31.
const TYPE_LIMIT: u8 = 32;

/// Returns the value of the key with this name, if the table has it.
fn value_named<'a>(table: &'a Table, name: &str) -> Option<&'a Value>
    ensures { option_map (λ v. view v.now) result ≡ get_member name.now (table_view table.now) }
{
    table.get(name)
}

/// Reads `format`, and returns its edition.
#[tactic(auto, unfolding(crate::specs::Steps::value_at))]
pub(crate) fn format(table: &Table) -> Result<Edition, TextFault>
    ensures { ReadsAs (λ e. e) result (value_at Key.Format (codes "format") as_integer format_of
        (table_view table.now)) }
{
    let key = Key::Format;
    let Some(value) = value_named(table, "format") else {
        return Err(TextFault::Missing { key });
    };
    let Some(number) = value.as_integer() else {
        return Err(TextFault::WrongType { key });
    };
    ranges::format_of(number).ok_or(TextFault::OutOfRange { key })
}

/// Reads `order`, which must be an order of the edition.
#[tactic(auto, unfolding(crate::specs::Steps::value_at))]
pub(crate) fn order(table: &Table, edition: Edition) -> Result<Order, TextFault>
    ensures { ReadsAs (λ o. o) result (value_at Key.Order (codes "order") as_integer (order_of edition)
        (table_view table.now)) }
{
    let key = Key::Order;
    let Some(value) = value_named(table, "order") else {
        return Err(TextFault::Missing { key });
    };
    let Some(number) = value.as_integer() else {
        return Err(TextFault::WrongType { key });
    };
    ranges::order_of(edition, number).ok_or(TextFault::OutOfRange { key })
}

/// Reads `lambda`, the inflation factor: four coefficients.
#[tactic(auto, unfolding(crate::specs::Steps::value_at))]
pub(crate) fn lambda(alloc: Global, table: &Table, order: Order) -> Result<Point, TextFault>
    ensures { ReadsAs (λ p. p) result (value_at Key.Lambda (codes "lambda") (row 4) (file_point order)
        (table_view table.now)) }
{
    let key = Key::Lambda;
    let Some(value) = value_named(table, "lambda") else {
        return Err(TextFault::Missing { key });
    };
    let Some(numbers) = forms::row(alloc, value, 4)? else {
        return Err(TextFault::WrongType { key });
    };
    ranges::point_of(order, numbers.as_slice()).ok_or(TextFault::OutOfRange { key })
}

/// Reads an edge type, from 0 to 31.
#[tactic(auto, unfolding(crate::specs::Steps::value_at))]
pub(crate) fn type_number(table: &Table, name: &str, key: Key) -> Result<u8, TextFault>
    ensures { ReadsAs (λ n. n) result (value_at key name.now as_integer (number_below 32)
        (table_view table.now)) }
{
    let Some(value) = value_named(table, name) else {
        return Err(TextFault::Missing { key });
    };
    let Some(number) = value.as_integer() else {
        return Err(TextFault::WrongType { key });
    };
    ranges::number_below(number, TYPE_LIMIT).ok_or(TextFault::OutOfRange { key })
}

/// Reads a list of edge types, each from 0 to 31.
#[tactic(auto, unfolding(crate::specs::Steps::value_at))]
pub(crate) fn type_numbers(
    alloc: Global,
    table: &Table,
    name: &str,
    key: Key,
) -> Result<Vec<u8>, TextFault>
    ensures { ReadsAs (λ v. v.items) result (value_at key name.now integer_list (each (number_below 32))
        (table_view table.now)) }
{
    let Some(value) = value_named(table, name) else {
        return Err(TextFault::Missing { key });
    };
    let Some(numbers) = forms::integers(alloc, value)? else {
        return Err(TextFault::WrongType { key });
    };
    ranges::numbers_below(alloc, numbers.as_slice(), TYPE_LIMIT)?.ok_or(TextFault::OutOfRange {
        key,
    })
}

/// Reads the vertices of a kind: rows of four coefficients.
#[tactic(auto, unfolding(crate::specs::Steps::value_at))]
pub(crate) fn vertices(
    alloc: Global,
    table: &Table,
    order: Order,
    key: Key,
) -> Result<Vec<Point>, TextFault>
    ensures { ReadsAs (λ v. v.items) result (value_at key (codes "vertices") (rows 4)
        (each (file_point order)) (table_view table.now)) }
{
    let Some(value) = value_named(table, "vertices") else {
        return Err(TextFault::Missing { key });
    };
    let Some(rows) = forms::rows(alloc, value, 4)? else {
        return Err(TextFault::WrongType { key });
    };
    ranges::points_of(alloc, order, rows.as_slice())?.ok_or(TextFault::OutOfRange { key })
}

/// Reads the children of a kind: rows of six integers, the kind, the turn and the four coefficients of the
/// shift.
#[tactic(auto, unfolding(crate::specs::Steps::value_at))]
pub(crate) fn children(
    alloc: Global,
    table: &Table,
    order: Order,
    key: Key,
) -> Result<Vec<Child>, TextFault>
    ensures { ReadsAs (λ v. map as_child v.items) result
        (value_at key (codes "children") (rows 6) (each (child_in_row order)) (table_view table.now)) }
{
    let Some(value) = value_named(table, "children") else {
        return Err(TextFault::Missing { key });
    };
    let Some(rows) = forms::rows(alloc, value, 6)? else {
        return Err(TextFault::WrongType { key });
    };
    ranges::children_of(alloc, order, rows.as_slice())?.ok_or(TextFault::OutOfRange { key })
}

/// Reads an array of tables, and returns its entries.
#[tactic(auto, unfolding(crate::specs::Steps::value_at))]
pub(crate) fn entries<'a>(
    alloc: Global,
    table: &'a Table,
    name: &str,
    key: Key,
) -> Result<Vec<&'a Table>, TextFault>
    ensures { ReadsAs (λ v. map (λ t. table_view t.now) v.items) result
        (value_at key name.now tables Some (table_view table.now)) }
{
    let Some(value) = value_named(table, name) else {
        return Err(TextFault::Missing { key });
    };
    forms::tables(alloc, value)?.ok_or(TextFault::WrongType { key })
}
