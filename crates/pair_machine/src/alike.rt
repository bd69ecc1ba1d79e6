//! Edges with the same parts, by which equal rows are found.
ghost use Rattle.std.specs.Prelude.{◌≡◌, ◌↔◌, ◌<◌, ◌/◌, ◌%◌, map, IsTrue, IfOk};
ghost use Rattle.theory_addresses.specs.Tables.{parts_of};
ghost use Rattle.edge_tables.specs.Views.{as_child_edge};
ghost use Rattle.pair_machine.specs.Alike.{IsFirstAlike, AreFirstAlike};
ghost use Rattle.pair_machine.specs.Numbers.{width_of};

use edge_tables::child_edge::ChildEdge;
use edge_tables::tables::Tables;
use std::alloc::Global;
use tile_shape::no_memory::NoMemory;

/// Returns the parts of the edge with a number, or none if there is no such edge.
fn parts_at(tables: &Tables, number: u8) -> &[ChildEdge]
    requires { number < width_of tables.now }
    ensures { map as_child_edge result.now ≡ parts_of tables.now (number / 12) (number % 12) }
{
    let row = &tables.rows()[usize::from(number / 12)];
    let edge = usize::from(number % 12);
    if edge < row.parts.len() {
        row.parts[edge].as_slice()
    } else {
        &[]
    }
}

/// Returns true if two lists of parts are the same.
fn are_same(a: &[ChildEdge], b: &[ChildEdge]) -> bool
    ensures { IsTrue result ↔ (map as_child_edge a.now ≡ map as_child_edge b.now) }
{
    a == b
}

/// Returns the least number whose edge has the same parts.
fn first_alike(tables: &Tables, number: u8) -> u8
    requires { number < width_of tables.now }
    ensures { IsFirstAlike tables.now number result }
{
    let parts = parts_at(tables, number);
    for other in 0..number {
        if are_same(parts_at(tables, other), parts) {
            return other;
        }
    }
    number
}

/// Returns, for each number of an edge, the least number whose edge has the same parts.
pub(crate) fn firsts_alike(alloc: Global, tables: &Tables) -> Result<Vec<u8>, NoMemory>
    ensures { IfOk result (λ firsts. AreFirstAlike tables.now firsts.items) }
{
    let width = tables.kinds() * 12;
    let mut firsts = Vec::with_capacity(alloc, usize::from(width))?;
    for number in 0..width {
        firsts.push(first_alike(tables, number))?;
    }
    Ok(firsts)
}
