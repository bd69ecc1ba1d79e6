//! Coherent contact tables, and the look-ups in them.
ghost use Rattle.std.specs.Prelude.{◌≡◌, ◌↔◌, ◌+◌, ◌<◌, ◌≤◌, ℕ, length, map, Some, IsSome, IfOk};
ghost use Rattle.theory_addresses.specs.Coherent.{IsCoherent};
ghost use Rattle.theory_addresses.specs.Tables.{kind_tables, type_of, child_kind_of, contact_of, part_of, part_count, mate_of};
ghost use Rattle.edge_tables.specs.Views.{as_contact, as_child_edge, as_kind_tables, as_tables};

use crate::child_edge::ChildEdge;
use crate::contact::Contact;
use crate::kind_rows::KindRows;
use crate::lists::{copied, copied_lists};
use crate::steps::Steps;
use std::alloc::Global;
use std::marker::Model;
use std::sync::ledger::Ledger;
use tile_shape::no_memory::NoMemory;

/// Coherent contact tables: the mate of each edge type, the types into which each is cut, and the tables of
/// each kind. Kinds, edges, children, types and parts are numbered from 0.
#[derive(Drop)]
pub struct Tables {
    mates: Vec<u8>,
    subs: Vec<Vec<u8>>,
    rows: Vec<KindRows>,
}

impl Model for Tables {
    ghost use Rattle.theory_addresses.specs.Tables.{Tables as TheTables};
    ghost use Rattle.theory_addresses.specs.Coherent.{IsCoherent};
    ghost use Rattle.edge_tables.specs.Views.{as_tables};

    ghost Value = { TheTables };

    ghost view = { λ t. as_tables t.mates t.subs t.rows };

    ghost invariant = { λ t. IsCoherent (as_tables t.mates t.subs t.rows) };
}

impl Tables {
    /// Makes the tables from these lists, which must be coherent. Needs no memory.
    pub fn new(mates: Vec<u8>, subs: Vec<Vec<u8>>, rows: Vec<KindRows>) -> Tables
        requires coherent { IsCoherent (as_tables mates subs rows) }
        ensures value { result ≡ as_tables mates subs rows }
    {
        Tables { mates, subs, rows }
    }

    /// Returns equal tables. Err if memory runs out.
    pub fn copy(&self, alloc: Global) -> Result<Tables, NoMemory>
        ensures { IfOk result (λ tables. tables ≡ self.now) }
    {
        let mut rows = Vec::new(alloc);
        for row in &self.rows {
            rows.push(row.copy(alloc)?)?;
        }
        Ok(Tables {
            mates: copied(alloc, &self.mates)?,
            subs: copied_lists(alloc, &self.subs)?,
            rows,
        })
    }

    /// Returns the mate of each type, by the number of the type.
    pub fn mates(&self) -> &Vec<u8>
        ensures { result.now.items ≡ self.now.mates }
    {
        &self.mates
    }

    /// Returns, for each type, the types into which it is cut.
    pub fn subs(&self) -> &Vec<Vec<u8>>
        ensures { map (λ v. v.items) result.now.items ≡ self.now.subs }
    {
        &self.subs
    }

    /// Returns the tables of each kind.
    pub fn rows(&self) -> &Vec<KindRows>
        ensures lists { map as_kind_tables result.now.items ≡ self.now.kinds }
        ensures coherent { IsCoherent self.now }
    {
        &self.rows
    }

    /// Returns the number of kinds.
    pub fn kinds(&self) -> u8
        ensures count { result ≡ length self.now.kinds }
        ensures coherent { IsCoherent self.now }
    {
        self.rows.len() as u8
    }

    /// Returns the tables of one kind.
    fn row(&self, kind: u8) -> &KindRows
        requires { kind < length self.now.kinds }
        ensures lists { as_kind_tables result.now ≡ kind_tables self.now kind }
        ensures coherent { IsCoherent self.now }
    {
        &self.rows[kind as usize]
    }

    /// Returns the number of edges of a kind.
    pub fn edges(&self, kind: u8) -> u8
        requires exists { kind < length self.now.kinds }
        ensures count { result ≡ length (kind_tables self.now kind).types }
        ensures exist { (edge : ℕ) → IsSome (type_of self.now kind edge) ↔ (edge < result) }
    {
        self.row(kind).types.len() as u8
    }

    /// Returns the number of children of a kind.
    pub fn children(&self, kind: u8) -> u8
        requires exists { kind < length self.now.kinds }
        ensures count { result ≡ length (kind_tables self.now kind).children }
        ensures exist { (child : ℕ) → IsSome (child_kind_of self.now kind child) ↔ (child < result) }
    {
        self.row(kind).children.len() as u8
    }

    /// Returns the kind of a child, which must exist.
    pub fn child_kind(&self, kind: u8, child: u8) -> u8
        requires exists { IsSome (child_kind_of self.now kind child) }
        ensures { child_kind_of self.now kind child ≡ Some result }
    {
        let row = self.row(kind);
        row.children[child as usize]
    }

    /// Returns the type of an edge, which must exist.
    pub fn edge_type(&self, kind: u8, edge: u8) -> u8
        requires exists { IsSome (type_of self.now kind edge) }
        ensures { type_of self.now kind edge ≡ Some result }
    {
        let row = self.row(kind);
        row.types[edge as usize]
    }

    /// Returns the mate of a type: the type of the same edge in the opposite direction.
    pub fn mate(&self, ty: u8) -> u8
        requires exists { IsSome (mate_of self.now ty) }
        ensures { mate_of self.now ty ≡ Some result }
    {
        self.mates[ty as usize]
    }

    /// Returns the number of parts into which an edge is cut, from 1 to 8.
    pub fn parts(&self, kind: u8, edge: u8) -> u8
        requires exists { IsSome (type_of self.now kind edge) }
        ensures count { result ≡ part_count self.now kind edge }
        ensures some { 0 < result }
        ensures at_most_8 { result ≤ 8 }
    {
        let row = self.row(kind);
        row.parts[edge as usize].len() as u8
    }

    /// Returns the contact of an edge of a child. Adds one to `steps`.
    pub fn contact<L: Ledger>(&self, kind: u8, child: u8, edge: u8, steps: &mut Steps<L>) -> Contact
        requires exists { IsSome (contact_of self.now kind child edge) }
        ensures value { contact_of self.now kind child edge ≡ Some (as_contact result) }
        ensures one_step { steps.new ≡ steps.old + 1 }
    {
        steps.tick();
        let row = self.row(kind);
        let contacts = &row.contacts[child as usize];
        contacts[edge as usize]
    }

    /// Returns the child edge that is one part of an edge. Adds one to `steps`.
    pub fn part<L: Ledger>(&self, kind: u8, edge: u8, part: u8, steps: &mut Steps<L>) -> ChildEdge
        requires exists { IsSome (part_of self.now kind edge part) }
        ensures value { part_of self.now kind edge part ≡ Some (as_child_edge result) }
        ensures one_step { steps.new ≡ steps.old + 1 }
    {
        steps.tick();
        let row = self.row(kind);
        let parts = &row.parts[edge as usize];
        parts[part as usize]
    }
}
