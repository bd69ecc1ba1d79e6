//! The row of a node.
ghost use Rattle.std.specs.Prelude.{◌≡◌, map, IfOk};
ghost use Rattle.theory_addresses.specs.Coherent.{IsCoherent};
ghost use Rattle.pair_machine.specs.Nodes.{IsNode, row_of};
ghost use Rattle.pair_machine.specs.Views.{as_node, as_row_pair};

use crate::looks::part;
use crate::node::Node;
use edge_tables::child_edge::ChildEdge;
use edge_tables::tables::Tables;
use std::alloc::Global;
use tile_shape::no_memory::NoMemory;

/// A child edge on one side, and the child edge on the other side that lies on it.
#[derive(Clone, Copy)]
pub(crate) struct RowPair {
    pub(crate) mine: ChildEdge,
    pub(crate) theirs: ChildEdge,
}

/// Returns the row of a node.
pub(crate) fn row_of(alloc: Global, tables: &Tables, node: Node) -> Result<Vec<RowPair>, NoMemory>
    requires coherent { IsCoherent tables.now }
    requires node { IsNode tables.now (as_node node) }
    ensures { IfOk result (λ row. map as_row_pair row.items ≡ row_of tables.now (as_node node)) }
{
    let count = tables.parts(node.kind, node.edge);
    let mut row = Vec::new(alloc);
    for p in 0..count {
        let mine = part(tables, node.kind, node.edge, p);
        let theirs = part(tables, node.other, node.back, count - 1 - p);
        row.push(RowPair { mine, theirs })?;
    }
    Ok(row)
}
