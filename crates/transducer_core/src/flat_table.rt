//! Contact tables in flat lists, and the look-ups in them.
ghost use Rattle.std.specs.Prelude.{◌≡◌, ◌↔◌, ◌<◌, ◌≤◌, ◌+◌, ◌*◌, ◌%◌, ◌⊎◌, ℕ, length, map, slice_get, Some, None, IsSome, IsTrue, IfOk, IfSome};
ghost use Rattle.theory_addresses.specs.Coherent.{IsCoherent};
ghost use Rattle.theory_addresses.specs.Address.{Climbs, Fits};
ghost use Rattle.theory_addresses.specs.Tables.{child_kinds, type_of, contact_of, part_of, part_count};
ghost use Rattle.edge_tables.specs.Views.{as_contact, as_child_edge};
ghost use Rattle.tile_shape.specs.Views.{step_of};
ghost use Rattle.transducer_core.specs.Blocks.{contact_blocks, part_blocks};
ghost use Rattle.transducer_core.specs.FlatTables.{contact_rows, part_rows, kind_rows};
ghost use Rattle.transducer_core.specs.Merged.{AllBegin, AreSpread, AreFilled, last_cell, no_row};
ghost use Rattle.transducer_core.specs.Once.{HasDifferent};

use crate::blocks::Blocks;
use crate::joined::{Joined, join};
use crate::merging::{Merged, merge};
use crate::mirror::mirror;
use crate::spread::{cell, kind_cells};
use crate::words::{Which, contact_in, part_in};
use edge_tables::child_edge::ChildEdge;
use edge_tables::contact::Contact;
use edge_tables::steps::Steps;
use edge_tables::tables::Tables;
use std::alloc::Global;
use std::marker::Model;
use std::sync::ledger::Ledger;
use tile_shape::no_memory::NoMemory;
use tile_shape::step::Step;

/// Contact tables in flat lists. Contracts see them as those tables.
///
/// The contact block of a child says what each of its edges is. The part block of an edge has the child edges
/// that are its parts, in order. Equal blocks are kept once. Where the block of a number of a kind begins is
/// at 256 times the kind plus the number. The other lists of the tables follow one another.
#[derive(Drop)]
pub struct FlatTable {
    lists: Joined,
    child_kinds: Vec<u32>,
    contacts: Merged,
    parts: Merged,
}

impl Model for FlatTable {
    ghost use Rattle.theory_addresses.specs.Tables.{Tables as TheTables};
    ghost use Rattle.transducer_core.specs.Flat.{flat_tables};
    ghost use Rattle.transducer_core.specs.FlatTables.{lists_in, IsFlat};

    ghost Value = { TheTables };

    ghost view = { λ f. flat_tables (lists_in f.lists f.contacts f.parts) };

    ghost invariant = { λ f. IsFlat (flat_tables (lists_in f.lists f.contacts f.parts)) f.lists f.child_kinds
        f.contacts f.parts };
}

impl FlatTable {
    /// Builds the flat table of these tables. It fails only if memory runs out.
    pub fn build(alloc: Global, tables: &Tables) -> Result<FlatTable, NoMemory>
        ensures tables { IfOk result (λ flat. flat ≡ tables.now) }
        ensures coherent { IsCoherent tables.now }
    {
        let rows = tables.rows();
        let lists = join(alloc, tables)?;
        let child_kinds = kind_cells(alloc, rows)?;
        let contacts = merge(alloc, rows, Which::Contacts)?;
        let parts = merge(alloc, rows, Which::Parts)?;
        Ok(FlatTable {
            lists,
            child_kinds,
            contacts,
            parts,
        })
    }

    /// Returns what an edge of a child is: inner, with the child and edge that it is opposite to, or outer,
    /// with the edge of the parent and the part. It counts one step.
    pub fn contact<L: Ledger>(&self, kind: u8, child: u8, edge: u8, steps: &mut Steps<L>) -> Contact
        requires exists { IsSome (contact_of self.now kind child edge) }
        ensures value { contact_of self.now kind child edge ≡ Some (as_contact result) }
        ensures one_step { steps.new ≡ steps.old + 1 }
    {
        self.coherent();
        let contacts = self.contacts();
        contact_in(contacts.look_up(cell(kind, child), usize::from(edge), steps))
    }

    /// Returns the child edge that is a part of an edge; parts are counted along the edge, from 0. It counts
    /// one step.
    pub fn part<L: Ledger>(&self, kind: u8, edge: u8, part: u8, steps: &mut Steps<L>) -> ChildEdge
        requires exists { IsSome (part_of self.now kind edge part) }
        ensures value { part_of self.now kind edge part ≡ Some (as_child_edge result) }
        ensures one_step { steps.new ≡ steps.old + 1 }
    {
        self.coherent();
        let across = mirror(self.part_count(kind, edge), part);
        let parts = self.parts();
        part_in(parts.look_up(cell(kind, edge), usize::from(across), steps))
    }

    /// Returns true if the kind exists and each digit's child has the kind below it.
    #[inline(always)]
    pub fn fits(&self, kind: u8, digits: &[Step]) -> bool
        ensures { IsTrue result ↔ Fits (child_kinds self.now)
            (record { kind = kind; digits = map step_of digits.now }) }
    {
        self.coherent();
        let last = u32::from(kind) * 256 + 255;
        let depth = digits.len();
        if depth == 0 {
            return (last as usize) < self.child_kinds().len();
        }
        match self.last_below(digits) {
            Some(found) => found == last,
            None => false,
        }
    }

    /// Returns the last cell of the row of the kind from which these digits climb. None if they climb from no
    /// kind. It goes down from the coarsest digit, so that each digit's cell also tests the parent below it.
    #[inline]
    fn last_below(&self, digits: &[Step]) -> Option<u32>
        requires some { 0 < length digits.now }
        ensures { (kind : ℕ) → (result ≡ Some (last_cell kind))
            ↔ Climbs (child_kinds self.now) kind (map step_of digits.now) }
    {
        self.coherent();
        let kinds = self.child_kinds();
        let mut level = digits.len() - 1;
        let mut last = last_at(kinds, digits[level])?;
        if level % 2 == 1 {
            level -= 1;
            last = last_of_child(kinds, digits[level], last)?;
        }
        while level > 0 {
            let next = last_of_child(kinds, digits[level - 1], last)?;
            last = last_of_child(kinds, digits[level - 2], next)?;
            level -= 2;
        }
        Some(last)
    }

    /// Returns the contact blocks.
    pub(crate) fn contacts(&self) -> Blocks<'_>
        ensures { AllBegin (contact_rows self.now) result.starts.now result.words.now }
    {
        self.contacts.blocks()
    }

    /// Returns the part blocks. Each is reversed, so that its entries are numbered as the opposite edge
    /// numbers its own parts.
    pub(crate) fn parts(&self) -> Blocks<'_>
        ensures { AllBegin (part_rows self.now) result.starts.now result.words.now }
    {
        self.parts.blocks()
    }

    /// Returns the last cell of the row of each child's kind, at the child's cell.
    pub(crate) fn child_kinds(&self) -> &[u32]
        ensures spread { AreSpread (kind_rows self.now) result.now }
        ensures filled { AreFilled (kind_rows self.now) result.now }
    {
        self.child_kinds.as_slice()
    }

    /// Returns the number of parts into which an edge is cut: as many as its type. In the list, the
    /// subdivisions follow the mates, one for each type, and then come the types of the edges of each kind.
    fn part_count(&self, kind: u8, edge: u8) -> u8
        requires exists { IsSome (type_of self.now kind edge) }
        ensures { result ≡ part_count self.now kind edge }
    {
        let ends = self.lists.ends.as_slice();
        let types = ends[0];
        let begin = ends[types + usize::from(kind)];
        let ty = usize::from(self.lists.items[begin + usize::from(edge)]);
        let low = ends[ty];
        let high = ends[ty + 1];
        (high - low) as u8
    }

    /// Returns how many different contact blocks there are.
    pub fn contact_blocks(&self) -> u16
        ensures { HasDifferent (contact_blocks self.now) result }
    {
        self.contacts.count
    }

    /// Returns how many different part blocks there are.
    pub fn part_blocks(&self) -> u16
        ensures { HasDifferent (part_blocks self.now) result }
    {
        self.parts.count
    }

    /// States that the tables fit together.
    pub(crate) fn coherent(&self)
        ensures { IsCoherent self.now }
    {
        let _fields = self.contacts.count;
    }
}

/// Returns what is at the cell of a digit.
#[inline]
fn last_at(kinds: &[u32], digit: Step) -> Option<u32>
    ensures there { IfSome result (λ last. slice_get kinds.now (256 * digit.parent + digit.child)
        ≡ Some last) }
    ensures none { (result ≡ None) → length kinds.now ≤ 256 * digit.parent + digit.child }
    ensures small { digit.child < 256 }
{
    kinds.get(cell(digit.parent, digit.child)).copied()
}

/// Returns what is at the cell of a digit if the row of the digit's parent has this last cell.
#[inline]
fn last_of_child(kinds: &[u32], digit: Step, last: u32) -> Option<u32>
    requires row { (last < length kinds.now × (last % 256 ≡ 255)) ⊎ (last ≡ no_row) }
    ensures there { IfSome result (λ next. (last ≡ last_cell digit.parent)
        × (slice_get kinds.now (256 * digit.parent + digit.child) ≡ Some next)) }
    ensures none { (result ≡ None) → ¬ last ≡ last_cell digit.parent }
    ensures small { digit.child < 256 }
{
    let at = cell(digit.parent, digit.child);
    if last.wrapping_sub(at as u32) < 256 {
        Some(kinds[at])
    } else {
        None
    }
}
