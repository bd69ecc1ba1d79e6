//! The forms of values: arrays of integers, arrays of arrays of integers, and arrays of tables. Each call
//! here returns None if the value has another form, and Err if memory runs out.
ghost use Rattle.std.specs.Prelude.{◌≡◌, All, length, map, option_map, IfOk, IfSome};
ghost use Rattle.toml.specs.Data.{as_integer, as_table};
ghost use Rattle.toml.specs.View.{view, table_view};
ghost use Rattle.rule_text.specs.Forms.{each, integer_list, row, rows, tables};

use std::alloc::Global;
use tile_shape::no_memory::NoMemory;
use toml::{Table, Value};

/// Returns the integers of an array of integers.
pub(crate) fn integers(alloc: Global, value: &Value) -> Result<Option<Vec<i64>>, NoMemory>
    ensures { IfOk result (λ found. option_map (λ v. v.items) found ≡ integer_list (view value.now)) }
{
    match value.as_array() {
        Some(values) => integers_of(alloc, values.as_slice()),
        None => Ok(None),
    }
}

/// Returns the integers, if each value is one.
fn integers_of(alloc: Global, values: &[Value]) -> Result<Option<Vec<i64>>, NoMemory>
    ensures { IfOk result (λ found. option_map (λ v. v.items) found ≡ each (λ v. as_integer (view v))
        values.now) }
{
    let mut numbers = Vec::with_capacity(alloc, values.len())?;
    for value in values {
        let Some(number) = value.as_integer() else {
            return Ok(None);
        };
        numbers.push(number)?;
    }
    Ok(Some(numbers))
}

/// Returns the integers of an array of `len` integers.
pub(crate) fn row(alloc: Global, value: &Value, len: usize) -> Result<Option<Vec<i64>>, NoMemory>
    ensures read { IfOk result (λ found. option_map (λ v. v.items) found ≡ row len (view value.now)) }
    ensures len { IfOk result (λ found. IfSome found (λ v. length v.items ≡ len)) }
{
    match integers(alloc, value)? {
        Some(numbers) if numbers.len() == len => Ok(Some(numbers)),
        _ => Ok(None),
    }
}

/// Returns the rows of an array of arrays of `len` integers.
pub(crate) fn rows(
    alloc: Global,
    value: &Value,
    len: usize,
) -> Result<Option<Vec<Vec<i64>>>, NoMemory>
    ensures read { IfOk result (λ found. option_map (λ v. map (λ w. w.items) v.items) found ≡ rows len
        (view value.now)) }
    ensures lens { IfOk result (λ found. IfSome found (λ v. All (λ w. length w.items ≡ len) v.items)) }
{
    match value.as_array() {
        Some(values) => rows_of(alloc, values.as_slice(), len),
        None => Ok(None),
    }
}

/// Returns the rows, if each value is an array of `len` integers.
fn rows_of(alloc: Global, values: &[Value], len: usize) -> Result<Option<Vec<Vec<i64>>>, NoMemory>
    ensures read { IfOk result (λ found. option_map (λ v. map (λ w. w.items) v.items) found ≡ each
        (λ v. row len (view v)) values.now) }
    ensures lens { IfOk result (λ found. IfSome found (λ v. All (λ w. length w.items ≡ len) v.items)) }
{
    let mut rows = Vec::with_capacity(alloc, values.len())?;
    for value in values {
        let Some(found) = row(alloc, value, len)? else {
            return Ok(None);
        };
        rows.push(found)?;
    }
    Ok(Some(rows))
}

/// Returns the tables of an array of tables.
pub(crate) fn tables(alloc: Global, value: &Value) -> Result<Option<Vec<&Table>>, NoMemory>
    ensures { IfOk result (λ found. option_map (λ v. map (λ t. table_view t.now) v.items) found ≡ tables
        (view value.now)) }
{
    match value.as_array() {
        Some(values) => tables_of(alloc, values.as_slice()),
        None => Ok(None),
    }
}

/// Returns the tables, if each value is one.
fn tables_of(alloc: Global, values: &[Value]) -> Result<Option<Vec<&Table>>, NoMemory>
    ensures { IfOk result (λ found. option_map (λ v. map (λ t. table_view t.now) v.items) found ≡ each
        (λ v. as_table (view v)) values.now) }
{
    let mut tables = Vec::with_capacity(alloc, values.len())?;
    for value in values {
        let Some(table) = value.as_table() else {
            return Ok(None);
        };
        tables.push(table)?;
    }
    Ok(Some(tables))
}
