//! All nodes of tables.
ghost use Rattle.std.specs.Prelude.{◌≡◌, ◌↔◌, ◌≤◌, ◌<◌, ◌*◌, [], ◌∷◌, length, map, IsSome, IfOk};
ghost use Rattle.edge_tables.specs.Views.{as_child_edge};
ghost use Rattle.theory_addresses.specs.Coherent.{IsCoherent};
ghost use Rattle.theory_addresses.specs.Search.{IsAmong};
ghost use Rattle.theory_addresses.specs.Tables.{kind_tables, child_kind_of, contacts_of};
ghost use Rattle.transducer_core.specs.Once.{HasNoneTwice};
ghost use Rattle.pair_machine.specs.Nodes.{Node as TheNode, IsNode, row_of as the_row_of};
ghost use Rattle.pair_machine.specs.Numbers.{width_of, AreNumbersSmall};
ghost use Rattle.pair_machine.specs.Searching.{IsSeen, CoversCandidates, child_nodes, kind_nodes, first_nodes, row_nodes, children_node};
ghost use Rattle.pair_machine.specs.Views.{as_node, as_row_pair};

use crate::looks::contact;
use crate::node::{Node, width};
use crate::row::{RowPair, row_of};
use edge_tables::contact::Contact;
use edge_tables::tables::Tables;
use std::alloc::Global;
use tile_shape::no_memory::NoMemory;

/// The nodes that were found, each exactly once, and for each number whether its node was found.
#[derive(Drop)]
struct Found {
    list: Vec<Node>,
    seen: Vec<bool>,
}

impl Found {
    /// Begins without a node.
    fn new(alloc: Global, width: usize) -> Result<Found, NoMemory>
        requires { width ≤ 192 }
        ensures empty { IfOk result (λ found. found.list.items ≡ []) }
        ensures seen { IfOk result (λ found. IsSeen width [] found.seen.items) }
    {
        let seen = vec![in alloc; false; width * width]?;
        Ok(Found {
            list: Vec::new(alloc),
            seen,
        })
    }

    /// Adds a node, if it is new.
    fn add(&mut self, width: usize, node: Node) -> Result<(), NoMemory>
        requires width { width ≤ 192 }
        requires seen { IsSeen width (map as_node self.old.list.items) self.old.seen.items }
        requires small { AreNumbersSmall width (as_node node) }
        ensures { IfOk result (λ u. CoversCandidates width (map as_node self.old.list.items)
            (map as_node self.new.list.items) self.new.seen.items (as_node node ∷ [])) }
    {
        let number = node.number(width);
        if !self.seen[number] {
            self.list.push(node)?;
            self.seen[number] = true;
        }
        Ok(())
    }

    /// Adds the nodes of the inner contacts of a child.
    fn add_child(&mut self, tables: &Tables, parent: u8, child: u8) -> Result<(), NoMemory>
        requires coherent { IsCoherent tables.now }
        requires child { IsSome (child_kind_of tables.now parent child) }
        requires seen { IsSeen (width_of tables.now) (map as_node self.old.list.items) self.old.seen.items }
        ensures { IfOk result (λ u. CoversCandidates (width_of tables.now) (map as_node self.old.list.items)
            (map as_node self.new.list.items) self.new.seen.items
            (child_nodes tables.now parent child (length (contacts_of tables.now parent child)))) }
    {
        let width = width(tables);
        let kind = tables.child_kind(parent, child);
        for edge in 0..tables.edges(kind) {
            match contact(tables, parent, child, edge) {
                Contact::Inner {
                    child: there,
                    edge: back,
                } => {
                    let other = tables.child_kind(parent, there);
                    self.add(
                        width,
                        Node {
                            kind,
                            edge,
                            other,
                            back,
                        },
                    )?;
                }
                Contact::Outer { edge: _, part: _ } => {}
            }
        }
        Ok(())
    }

    /// Adds the nodes of the inner contacts of a kind's children.
    fn add_kind(&mut self, tables: &Tables, parent: u8) -> Result<(), NoMemory>
        requires coherent { IsCoherent tables.now }
        requires seen { IsSeen (width_of tables.now) (map as_node self.old.list.items) self.old.seen.items }
        requires kind { parent < length tables.now.kinds }
        ensures { IfOk result (λ u. CoversCandidates (width_of tables.now) (map as_node self.old.list.items)
            (map as_node self.new.list.items) self.new.seen.items
            (kind_nodes tables.now parent (length (kind_tables tables.now parent).children))) }
    {
        for child in 0..tables.children(parent) {
            self.add_child(tables, parent, child)?;
        }
        Ok(())
    }

    /// Adds the nodes of all inner contacts.
    fn add_first(&mut self, tables: &Tables) -> Result<(), NoMemory>
        requires coherent { IsCoherent tables.now }
        requires seen { IsSeen (width_of tables.now) (map as_node self.old.list.items) self.old.seen.items }
        ensures { IfOk result (λ u. CoversCandidates (width_of tables.now) (map as_node self.old.list.items)
            (map as_node self.new.list.items) self.new.seen.items
            (first_nodes tables.now (length tables.now.kinds))) }
    {
        for parent in 0..tables.kinds() {
            self.add_kind(tables, parent)?;
        }
        Ok(())
    }

    /// Adds the node of a pair in a node's row.
    fn add_pair(&mut self, tables: &Tables, node: Node, pair: RowPair) -> Result<(), NoMemory>
        requires coherent { IsCoherent tables.now }
        requires node { IsNode tables.now (as_node node) }
        requires pair { IsAmong (as_row_pair pair) (the_row_of tables.now (as_node node)) }
        requires seen { IsSeen (width_of tables.now) (map as_node self.old.list.items) self.old.seen.items }
        ensures { IfOk result (λ u. CoversCandidates (width_of tables.now) (map as_node self.old.list.items)
            (map as_node self.new.list.items) self.new.seen.items
            (children_node tables.now node.kind (as_child_edge pair.mine) node.other
            (as_child_edge pair.theirs))) }
    {
        let kind = tables.child_kind(node.kind, pair.mine.child);
        let other = tables.child_kind(node.other, pair.theirs.child);
        self.add(
            width(tables),
            Node {
                kind,
                edge: pair.mine.edge,
                other,
                back: pair.theirs.edge,
            },
        )
    }

    /// Adds the nodes of the pairs in a node's row.
    fn add_row(&mut self, tables: &Tables, node: Node, row: &[RowPair]) -> Result<(), NoMemory>
        requires coherent { IsCoherent tables.now }
        requires node { IsNode tables.now (as_node node) }
        requires row { map as_row_pair row.now ≡ the_row_of tables.now (as_node node) }
        requires seen { IsSeen (width_of tables.now) (map as_node self.old.list.items) self.old.seen.items }
        ensures { IfOk result (λ u. CoversCandidates (width_of tables.now) (map as_node self.old.list.items)
            (map as_node self.new.list.items) self.new.seen.items
            (row_nodes tables.now (as_node node) (the_row_of tables.now (as_node node)))) }
    {
        for pair in row {
            self.add_pair(tables, node, *pair)?;
        }
        Ok(())
    }
}

/// Returns all nodes, each exactly once.
pub(crate) fn nodes_of(alloc: Global, tables: &Tables) -> Result<Vec<Node>, NoMemory>
    ensures once { IfOk result (λ nodes. HasNoneTwice (map as_node nodes.items)) }
    ensures all { IfOk result (λ nodes. (n : TheNode) → IsAmong n (map as_node nodes.items)
        ↔ IsNode tables.now n) }
    ensures few { IfOk result (λ nodes. length nodes.items ≤ 36864) }
{
    let mut found = Found::new(alloc, width(tables))?;
    found.add_first(tables)?;
    let mut next = 0;
    while next < found.list.len() {
        let node = found.list[next];
        let row = row_of(alloc, tables, node)?;
        found.add_row(tables, node, &row)?;
        next += 1;
    }
    Ok(found.list)
}
