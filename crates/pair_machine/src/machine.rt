//! The machine that finds the edges by which two tiles meet.
ghost use Rattle.std.specs.Prelude.{◌≡◌, ◌≢◌, ◌↔◌, ◌≤◌, [], length, map, drop, IsSome, IfOk};
ghost use Rattle.theory_addresses.specs.Address.{Fits};
ghost use Rattle.theory_addresses.specs.Coherent.{IsCoherent};
ghost use Rattle.theory_addresses.specs.Search.{IsAmong};
ghost use Rattle.theory_addresses.specs.Tables.{child_kinds, child_kind_of};
ghost use Rattle.tile_shape.specs.Views.{address_of, step_of};
ghost use Rattle.pair_machine.specs.Between.{Pair, HaveCommon, IsBetween};
ghost use Rattle.pair_machine.specs.Kept.{ArePairsKept, IsFunctional};
ghost use Rattle.pair_machine.specs.Nodes.{IsNode, IsRow, IsNumber, row_of as the_row_of};
ghost use Rattle.pair_machine.specs.Reading.{node_of, step_pairs, pairs_read};
ghost use Rattle.pair_machine.specs.Verdicts.{IsPairVerdict, pairs_of};
ghost use Rattle.pair_machine.specs.Views.{as_node, as_row_pair};

use crate::compare::{also, are_same, have_common, parting};
use crate::itself::some_meets_itself;
use crate::node::{Node, width};
use crate::nodes::nodes_of;
use crate::partners::Partners;
use crate::row::RowPair;
use crate::rows::Rows;
use crate::verdict::Verdict;
use edge_tables::tables::Tables;
use std::alloc::Global;
use std::marker::Model;
use tile_shape::address::Address;
use tile_shape::no_memory::NoMemory;
use tile_shape::step::Step;

/// The pair machine of contact tables. Contracts see it as those tables. It has all their nodes and the rows
/// of these, equal ones once, and finds the row of a node by the node's number.
#[derive(Drop)]
pub struct PairMachine {
    tables: Tables,
    /// True if some child meets itself. Then two addresses may meet above the level where they part.
    meets_itself: bool,
    nodes: Vec<Node>,
    numbers: Vec<u16>,
    rows: Vec<Vec<RowPair>>,
}

impl Model for PairMachine {
    ghost use Rattle.std.specs.Prelude.{map};
    ghost use Rattle.theory_addresses.specs.Tables.{Tables as TheTables};
    ghost use Rattle.pair_machine.specs.Machine.{IsMachine};
    ghost use Rattle.pair_machine.specs.Views.{as_node, as_row_pair};

    ghost Value = { TheTables };

    ghost view = { λ m. m.tables };

    ghost invariant = { λ m. IsMachine m.tables m.meets_itself (map as_node m.nodes.items) m.numbers.items
        (map (λ row. map as_row_pair row.items) m.rows.items) };
}

impl PairMachine {
    /// Makes the machine of these tables, and keeps a copy of them. It fails only if memory runs out.
    pub fn compile(alloc: Global, tables: &Tables) -> Result<PairMachine, NoMemory>
        ensures tables { IfOk result (λ machine. machine ≡ tables.now) }
    {
        let meets_itself = some_meets_itself(tables);
        let nodes = nodes_of(alloc, tables)?;
        let width = width(tables);
        let mut numbers = vec![in alloc; 0u16; width * width]?;
        let mut rows = Rows::new(alloc, tables)?;
        for node in &nodes {
            numbers[node.number(width)] = rows.number_of(alloc, tables, *node)?;
        }
        Ok(PairMachine {
            tables: tables.copy(alloc)?,
            meets_itself,
            nodes,
            numbers,
            rows: rows.list,
        })
    }

    /// Returns how many nodes there are, at most 36,864.
    pub fn nodes(&self) -> u32
        ensures number { IsNumber (IsNode self.now) result }
        ensures at_most_36864 { result ≤ 36864 }
    {
        self.nodes.len() as u32
    }

    /// Returns how many different rows the nodes have.
    pub fn rows(&self) -> u32
        ensures number { IsNumber (IsRow self.now) result }
        ensures at_most_36864 { result ≤ 36864 }
    {
        self.rows.len() as u32
    }

    /// Returns the row of a node.
    fn row(&self, node: Node) -> &Vec<RowPair>
        requires node { IsNode self.now (as_node node) }
        ensures row { map as_row_pair result.now.items ≡ the_row_of self.now (as_node node) }
        ensures coherent { IsCoherent self.now }
    {
        &self.rows[usize::from(self.numbers[node.number(width(&self.tables))])]
    }

    /// Returns the level from which digits are read: coarser digits are the same in both, and leave no pair.
    fn first_level(&self, xs: &[Step], ys: &[Step]) -> usize
        requires one_depth { length xs.now ≡ length ys.now }
        ensures within { result ≤ length xs.now }
        ensures same_above { drop result xs.now ≡ drop result ys.now }
        ensures none_above { pairs_read self.now (drop result (map step_of xs.now))
            (drop result (map step_of ys.now)) ≡ [] }
    {
        if self.meets_itself {
            xs.len()
        } else {
            parting(xs, ys)
        }
    }

    /// Returns what is left of the pairs above, after two digits are read.
    fn read_digits(&self, above: &Partners, fresh: bool, x: Step, y: Step) -> Partners
        requires child { IsSome (child_kind_of self.now x.parent x.child) }
        requires nodes { (p : Pair) → IsAmong p above.now
            → IsNode self.now (node_of (step_of x) (step_of y) p) }
        requires functional { IsFunctional (step_pairs self.now (step_of x) (step_of y) fresh above.now) }
        ensures { ArePairsKept result (step_pairs self.now (step_of x) (step_of y) fresh above.now) }
    {
        let mut partners = Partners::none();
        if fresh {
            partners = Partners::of_children(&self.tables, x.parent, x.child, y.child);
        }
        for pair in above.as_slice() {
            let row = self.row(Node {
                kind: x.parent,
                edge: pair.mine,
                other: y.parent,
                back: pair.theirs,
            });
            partners.keep_row(row, x.child, y.child);
        }
        partners
    }

    /// Returns the edges that meet, by the digits from coarse to fine, until no pair can be left.
    fn read(&self, a: &Address, b: &Address) -> Partners
        requires fits_a { Fits (child_kinds self.now) (address_of a.now) }
        requires fits_b { Fits (child_kinds self.now) (address_of b.now) }
        requires one_depth { length a.now.digits.items ≡ length b.now.digits.items }
        ensures { ArePairsKept result (pairs_read self.now (map step_of a.now.digits.items)
            (map step_of b.now.digits.items)) }
    {
        let _coherent = self.tables.kinds();
        let xs = a.digits.as_slice();
        let ys = b.digits.as_slice();
        let mut level = self.first_level(xs, ys);
        let mut partners = Partners::none();
        let mut same = true;
        while level > 0 {
            level -= 1;
            let x = xs[level];
            let y = ys[level];
            let fresh = also(x.parent, y.parent, same);
            partners = self.read_digits(&partners, fresh, x, y);
            same = also(x.child, y.child, fresh);
            if partners.end_here(same) {
                return partners;
            }
        }
        partners
    }

    /// Decides how two tiles lie to each other, by their addresses:
    ///
    /// - `Strangers` if they have no common supertile: their depths, or their kinds at that depth, differ;
    /// - `Same` if they are one tile;
    /// - `Beside` with all pairs of edges that touch, in the order of the first tile's edges;
    /// - `Apart` if no edges touch.
    ///
    /// It reads the digits of both from coarse to fine, by the rows of the nodes, and needs no memory.
    pub fn decide(&self, a: &Address, b: &Address) -> Verdict
        requires fits_a { Fits (child_kinds self.now) (address_of a.now) }
        requires fits_b { Fits (child_kinds self.now) (address_of b.now) }
        ensures verdict { IsPairVerdict self.now (address_of a.now) (address_of b.now) result }
        ensures strangers { (result ≡ Verdict.Strangers)
            ↔ (HaveCommon (address_of a.now) (address_of b.now) → ⊥) }
        ensures same { (result ≡ Verdict.Same) ↔ (HaveCommon (address_of a.now) (address_of b.now)
            × (address_of a.now ≡ address_of b.now)) }
        ensures apart { (result ≡ Verdict.Apart)
            ↔ (HaveCommon (address_of a.now) (address_of b.now) × (address_of a.now ≢ address_of b.now)
            × IsBetween self.now (address_of a.now) (address_of b.now) []) }
        ensures all_pairs_touching { HaveCommon (address_of a.now) (address_of b.now)
            → address_of a.now ≢ address_of b.now → IsBetween self.now (address_of a.now) (address_of b.now)
            (pairs_of result) }
    {
        self.verdict_of(a, b)
    }

    /// Returns the relation of two tiles, by cases.
    fn verdict_of(&self, a: &Address, b: &Address) -> Verdict
        requires fits_a { Fits (child_kinds self.now) (address_of a.now) }
        requires fits_b { Fits (child_kinds self.now) (address_of b.now) }
        ensures { IsPairVerdict self.now (address_of a.now) (address_of b.now) result }
    {
        if !have_common(a, b) {
            return Verdict::Strangers;
        }
        if are_same(a, b) {
            return Verdict::Same;
        }
        let _coherent = self.tables.kinds();
        let partners = self.read(a, b);
        if partners.are_none() {
            return Verdict::Apart;
        }
        let pairs = partners.into_pairs();
        Verdict::Beside { pairs }
    }
}
