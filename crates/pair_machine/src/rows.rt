//! Rows, equal ones kept once.
ghost use Rattle.std.specs.Prelude.{◌≡◌, ◌<◌, ◌≤◌, [], length, map, IfOk};
ghost use Rattle.theory_addresses.specs.Coherent.{IsCoherent};
ghost use Rattle.pair_machine.specs.Alike.{row_key};
ghost use Rattle.pair_machine.specs.Indexed.{IsIndexed};
ghost use Rattle.pair_machine.specs.Machine.{IsKeptOnce};
ghost use Rattle.pair_machine.specs.Nodes.{IsNode, row_of as the_row_of};
ghost use Rattle.pair_machine.specs.Numbers.{mine_of, theirs_of};
ghost use Rattle.pair_machine.specs.Views.{as_node, as_row_pair};

use crate::alike::firsts_alike;
use crate::node::{Node, width};
use crate::row::{RowPair, row_of};
use edge_tables::tables::Tables;
use std::alloc::Global;
use tile_shape::no_memory::NoMemory;

/// Rows, each exactly once, with an index. The first edges that are alike to a node's two edges give its row.
#[derive(Drop)]
pub(crate) struct Rows {
    pub(crate) list: Vec<Vec<RowPair>>,
    places: Vec<Option<u16>>,
    firsts: Vec<u8>,
}

impl Rows {
    /// Begins without a row.
    pub(crate) fn new(alloc: Global, tables: &Tables) -> Result<Rows, NoMemory>
        ensures empty { IfOk result (λ rows. rows.list.items ≡ []) }
        ensures indexed { IfOk result (λ rows. IsIndexed tables.now rows.firsts.items rows.places.items []) }
    {
        let width = width(tables);
        Ok(Rows {
            list: Vec::new(alloc),
            places: vec![in alloc; None; width * width]?,
            firsts: firsts_alike(alloc, tables)?,
        })
    }

    /// Returns the key of a node.
    fn key(&self, width: usize, node: Node) -> usize
        requires few { width ≤ 192 }
        requires mine { mine_of (as_node node) < length self.now.firsts.items }
        requires theirs { theirs_of (as_node node) < length self.now.firsts.items }
        ensures { result ≡ row_key width self.now.firsts.items (as_node node) }
    {
        let mine = self.firsts[node.mine()];
        let theirs = self.firsts[node.theirs()];
        usize::from(mine) * width + usize::from(theirs)
    }

    /// Returns the number of a node's row, which is kept if no equal one is.
    pub(crate) fn number_of(
        &mut self,
        alloc: Global,
        tables: &Tables,
        node: Node,
    ) -> Result<u16, NoMemory>
        requires coherent { IsCoherent tables.now }
        requires node { IsNode tables.now (as_node node) }
        requires few { length self.old.list.items < 36864 }
        requires indexed { IsIndexed tables.now self.old.firsts.items self.old.places.items
            (map (λ r. map as_row_pair r.items) self.old.list.items) }
        ensures indexed { IfOk result (λ place. IsIndexed tables.now self.new.firsts.items
            self.new.places.items (map (λ r. map as_row_pair r.items) self.new.list.items)) }
        ensures kept { IfOk result (λ place. IsKeptOnce
            (map (λ r. map as_row_pair r.items) self.old.list.items)
            (map (λ r. map as_row_pair r.items) self.new.list.items) (the_row_of tables.now (as_node node))
            place) }
    {
        let key = self.key(width(tables), node);
        if let Some(place) = self.places[key] {
            return Ok(place);
        }
        let place = self.list.len() as u16;
        self.list.push(row_of(alloc, tables, node)?)?;
        self.places[key] = Some(place);
        Ok(place)
    }
}
