//! The edges of one tile that meet edges of another.
ghost use Rattle.std.specs.Prelude.{◌≡◌, ◌↔◌, ◌<◌, List, [], ◌∷◌, ◌++◌, Some, false, map, IsSome, IsTrue, IfSome, IfNone};
ghost use Rattle.theory_addresses.specs.Coherent.{IsCoherent};
ghost use Rattle.theory_addresses.specs.Search.{IsAmong};
ghost use Rattle.theory_addresses.specs.Tables.{child_kind_of};
ghost use Rattle.edge_tables.specs.Views.{as_contact};
ghost use Rattle.pair_machine.specs.Between.{Pair, IsInOrder};
ghost use Rattle.pair_machine.specs.Kept.{ArePairsKept, IsFunctional, BelongsAt};
ghost use Rattle.pair_machine.specs.Nodes.{RowPair as TheRowPair};
ghost use Rattle.pair_machine.specs.Reading.{between_children, left_one, left_of, edge_met_by};
ghost use Rattle.pair_machine.specs.Views.{as_pair, as_row_pair};

use crate::edge_pair::EdgePair;
use crate::looks::contact;
use crate::row::RowPair;
use arrayvec::ArrayVec;
use edge_tables::contact::Contact;
use edge_tables::tables::Tables;
use std::marker::Model;

/// The edges of one tile that meet edges of another, in the order of the first tile's edges, each at most
/// once. Contracts see them as that list.
#[derive(Drop)]
pub(crate) struct Partners {
    pairs: ArrayVec<EdgePair, 12>,
}

impl Model for Partners {
    ghost use Rattle.std.specs.Prelude.{List, map};
    ghost use Rattle.pair_machine.specs.Between.{Pair};
    ghost use Rattle.pair_machine.specs.Kept.{ArePartners};
    ghost use Rattle.pair_machine.specs.Views.{as_pair};

    ghost Value = { List Pair };

    ghost view = { λ p. map as_pair p.pairs.items };

    ghost invariant = { λ p. ArePartners (map as_pair p.pairs.items) };
}

/// Returns the place of a pair with this first edge among pairs in order, or None if one is there already.
fn place_for(pairs: &[EdgePair], mine: u8) -> Option<usize>
    requires in_order { IsInOrder (map as_pair pairs.now) }
    ensures belongs { IfSome result (λ place. BelongsAt (map as_pair pairs.now) mine place) }
    ensures stands { IfNone result ((p : Pair) × IsAmong p (map as_pair pairs.now) × (p.mine ≡ mine)) }
{
    for place in 0..pairs.len() {
        let next = pairs[place].mine;
        if next == mine {
            return None;
        }
        if mine < next {
            return Some(place);
        }
    }
    Some(pairs.len())
}

impl Partners {
    /// Begins without a pair.
    pub(crate) fn none() -> Partners
        ensures { result ≡ [] }
    {
        Partners {
            pairs: ArrayVec::new(),
        }
    }

    /// Returns true if no edge meets any.
    pub(crate) fn are_none(&self) -> bool
        ensures { IsTrue result ↔ (self.now ≡ []) }
    {
        self.pairs.is_empty()
    }

    /// Returns the pairs.
    pub(crate) fn as_slice(&self) -> &[EdgePair]
        ensures { map as_pair result.now ≡ self.now }
    {
        self.pairs.as_slice()
    }

    /// Returns the pairs, and consumes the list.
    pub(crate) fn into_pairs(self) -> ArrayVec<EdgePair, 12>
        ensures pairs { map as_pair result.items ≡ self }
        ensures in_order { IsInOrder self }
    {
        self.pairs
    }

    /// Returns true if no finer digits can leave a pair: none is left, and the digits read so far are not the
    /// same.
    pub(crate) fn end_here(&self, same: bool) -> bool
        ensures { IsTrue result → (same ≡ false) × (self.now ≡ []) }
    {
        self.are_none() && !same
    }

    /// Returns the inner contacts between two children of a kind.
    pub(crate) fn of_children(tables: &Tables, kind: u8, mine: u8, theirs: u8) -> Partners
        requires coherent { IsCoherent tables.now }
        requires child { IsSome (child_kind_of tables.now kind mine) }
        ensures { ArePairsKept result (between_children tables.now kind mine theirs) }
    {
        let mut partners = Partners::none();
        for edge in 0..tables.edges(tables.child_kind(kind, mine)) {
            partners.keep_contact(edge, theirs, contact(tables, kind, mine, edge));
        }
        partners
    }

    /// Adds that these two edges meet. If the first has a partner already, it is this one.
    fn keep(&mut self, pair: EdgePair)
        requires edge { pair.mine < 12 }
        ensures { (ps : List Pair) → ArePairsKept self.old ps → IsFunctional (ps ++ as_pair pair ∷ [])
            → ArePairsKept self.new (ps ++ as_pair pair ∷ []) }
    {
        if let Some(place) = place_for(self.pairs.as_slice(), pair.mine) {
            self.pairs.insert(place, pair);
        }
    }

    /// Keeps an inner contact of an edge with a child.
    fn keep_contact(&mut self, edge: u8, theirs: u8, contact: Contact)
        requires edge { edge < 12 }
        ensures { (ps : List Pair) → ArePairsKept self.old ps
            → IsFunctional (ps ++ edge_met_by edge theirs (Some (as_contact contact)))
            → ArePairsKept self.new (ps ++ edge_met_by edge theirs (Some (as_contact contact))) }
    {
        if let Contact::Inner { child, edge: back } = contact {
            if child == theirs {
                self.keep(EdgePair {
                    mine: edge,
                    theirs: back,
                });
            }
        }
    }

    /// Keeps a pair of a row, if these children are read.
    fn keep_one(&mut self, pair: RowPair, mine: u8, theirs: u8)
        requires edge { pair.mine.edge < 12 }
        ensures { (ps : List Pair) → ArePairsKept self.old ps
            → IsFunctional (ps ++ left_one (as_row_pair pair) mine theirs)
            → ArePairsKept self.new (ps ++ left_one (as_row_pair pair) mine theirs) }
    {
        if pair.mine.child == mine {
            if pair.theirs.child == theirs {
                self.keep(EdgePair {
                    mine: pair.mine.edge,
                    theirs: pair.theirs.edge,
                });
            }
        }
    }

    /// Keeps what a row leaves, if these children are read.
    pub(crate) fn keep_row(&mut self, row: &[RowPair], mine: u8, theirs: u8)
        requires edges { (pair : TheRowPair) → IsAmong pair (map as_row_pair row.now) → pair.mine.edge < 12 }
        ensures { (ps : List Pair) → ArePairsKept self.old ps
            → IsFunctional (ps ++ left_of (map as_row_pair row.now) mine theirs)
            → ArePairsKept self.new (ps ++ left_of (map as_row_pair row.now) mine theirs) }
    {
        for pair in row {
            self.keep_one(*pair, mine, theirs);
        }
    }
}
