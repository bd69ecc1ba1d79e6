//! Makes the TOML values of the parts of a rule. Each call that returns an error does so because memory ran
//! out.
ghost use Rattle.std.specs.Prelude.{◌≡◌, All, map, pos, IfOk, OnOk};
ghost use Rattle.toml.specs.Data.{integer};
ghost use Rattle.toml.specs.View.{view, table_view};
ghost use Rattle.rule_model.specs.Views.{as_child, as_type, as_kind, as_rule};
ghost use Rattle.rule_model.specs.Tiling.{listed};
ghost use Rattle.rule_text.specs.Written.{put_member, number_data, list_data, point_data, child_data, type_data, kind_data, format_number, rule_members, IsFour, HasFours};

use cyclo_points::point::Point;
use rule_model::child::Child;
use rule_model::edition::Edition;
use rule_model::kind_row::KindRow;
use rule_model::rule::Rule;
use rule_model::type_row::TypeRow;
use std::alloc::Global;
use tile_shape::no_memory::NoMemory;
use toml::{Table, Value};

/// Puts a value at a key of the table.
fn put(alloc: Global, table: &mut Table, key: &str, value: Value) -> Result<(), NoMemory>
    ensures { OnOk result (table_view table.new ≡ put_member key.now (view value) (table_view table.old)) }
{
    let key = String::from_str(alloc, key)?;
    match table.insert(key, value) {
        Ok(_) => Ok(()),
        Err(_) => Err(NoMemory),
    }
}

/// Makes the value of a number.
fn number(n: u8) -> Value
    ensures { view result ≡ number_data n }
{
    Value::from(n)
}

/// Makes an array of numbers.
fn numbers(alloc: Global, ns: &[u8]) -> Result<Value, NoMemory>
    ensures { IfOk result (λ value. view value ≡ list_data number_data ns.now) }
{
    let mut values = Vec::new(alloc);
    for n in ns {
        values.push(number(*n))?;
    }
    Ok(Value::from(values))
}

/// Makes an array of integers.
fn integers(alloc: Global, zs: &[i64]) -> Result<Value, NoMemory>
    ensures { IfOk result (λ value. view value ≡ list_data integer zs.now) }
{
    let mut values = Vec::new(alloc);
    for z in zs {
        values.push(Value::from(*z))?;
    }
    Ok(Value::from(values))
}

/// Makes the array of the four coefficients of a point.
fn point(alloc: Global, p: &Point) -> Result<Value, NoMemory>
    ensures value { IfOk result (λ value. view value ≡ point_data p.now) }
    ensures fours { OnOk result (IsFour p.now) }
{
    integers(alloc, p.c.as_slice())
}

/// Makes an array of points.
fn points(alloc: Global, ps: &[Point]) -> Result<Value, NoMemory>
    ensures value { IfOk result (λ value. view value ≡ list_data point_data ps.now) }
    ensures fours { OnOk result (All IsFour ps.now) }
{
    let mut values = Vec::new(alloc);
    for p in ps {
        values.push(point(alloc, p)?)?;
    }
    Ok(Value::from(values))
}

/// Makes the array of a child: its kind, its turn and the four coefficients of its shift.
fn child(alloc: Global, c: &Child) -> Result<Value, NoMemory>
    ensures value { IfOk result (λ value. view value ≡ child_data (as_child c.now)) }
    ensures fours { OnOk result (IsFour c.now.shift) }
{
    let [a0, a1, a2, a3] = c.shift.c;
    integers(
        alloc,
        &[i64::from(c.kind), i64::from(c.turn), a0, a1, a2, a3],
    )
}

/// Makes an array of children.
fn children(alloc: Global, cs: &[Child]) -> Result<Value, NoMemory>
    ensures value { IfOk result (λ value. view value ≡ list_data child_data (map as_child cs.now)) }
    ensures fours { OnOk result (All (λ c. IsFour c.motion.shift) (map as_child cs.now)) }
{
    let mut values = Vec::new(alloc);
    for c in cs {
        values.push(child(alloc, c)?)?;
    }
    Ok(Value::from(values))
}

/// Makes the entry of an edge type.
fn type_entry(alloc: Global, row: &TypeRow) -> Result<Value, NoMemory>
    ensures { IfOk result (λ value. view value ≡ type_data (as_type row.now)) }
{
    let mut entry = Table::new(alloc);
    put(alloc, &mut entry, "mate", number(row.mate))?;
    put(
        alloc,
        &mut entry,
        "parts",
        numbers(alloc, row.parts.as_slice())?,
    )?;
    Ok(Value::from(entry))
}

/// Makes the entries of the edge types.
fn types(alloc: Global, rows: &[TypeRow]) -> Result<Value, NoMemory>
    ensures { IfOk result (λ value. view value ≡ list_data type_data (map as_type rows.now)) }
{
    let mut values = Vec::new(alloc);
    for row in rows {
        values.push(type_entry(alloc, row)?)?;
    }
    Ok(Value::from(values))
}

/// Makes the entry of a kind.
fn kind_entry(alloc: Global, row: &KindRow) -> Result<Value, NoMemory>
    ensures value { IfOk result (λ value. view value ≡ kind_data (as_kind row.now)) }
    ensures fours { OnOk result (HasFours (as_kind row.now)) }
{
    let mut entry = Table::new(alloc);
    put(
        alloc,
        &mut entry,
        "vertices",
        points(alloc, row.vertices.as_slice())?,
    )?;
    put(
        alloc,
        &mut entry,
        "edges",
        numbers(alloc, row.edges.as_slice())?,
    )?;
    put(
        alloc,
        &mut entry,
        "children",
        children(alloc, row.children.as_slice())?,
    )?;
    Ok(Value::from(entry))
}

/// Makes the entries of the kinds.
fn kinds(alloc: Global, rows: &[KindRow]) -> Result<Value, NoMemory>
    ensures value { IfOk result (λ value. view value ≡ list_data kind_data (map as_kind rows.now)) }
    ensures fours { OnOk result (All HasFours (map as_kind rows.now)) }
{
    let mut values = Vec::new(alloc);
    for row in rows {
        values.push(kind_entry(alloc, row)?)?;
    }
    Ok(Value::from(values))
}

/// Returns the number of an edition's format.
fn format_number(edition: Edition) -> u8
    ensures { result ≡ format_number edition }
{
    match edition {
        Edition::One => 1,
        Edition::Two => 2,
    }
}

/// Makes the document of a rule.
pub(crate) fn document(alloc: Global, rule: &Rule) -> Result<Table, NoMemory>
    ensures value { IfOk result (λ table. table_view table ≡ rule_members (listed rule.now)) }
    ensures fours { OnOk result (IsFour rule.now.factor × All HasFours (as_rule rule.now).kinds) }
{
    let mut table = Table::new(alloc);
    put(
        alloc,
        &mut table,
        "format",
        number(format_number(rule.edition)),
    )?;
    put(alloc, &mut table, "order", number(rule.order.n()))?;
    put(alloc, &mut table, "lambda", point(alloc, &rule.factor)?)?;
    put(
        alloc,
        &mut table,
        "glue",
        numbers(alloc, rule.glue.as_slice())?,
    )?;
    put(
        alloc,
        &mut table,
        "type",
        types(alloc, rule.types.as_slice())?,
    )?;
    put(
        alloc,
        &mut table,
        "kind",
        kinds(alloc, rule.kinds.as_slice())?,
    )?;
    Ok(table)
}
