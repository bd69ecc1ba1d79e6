//! Look-ups that nobody counts.
ghost use Rattle.std.specs.Prelude.{◌≡◌, ◌<◌, Some, IsSome};
ghost use Rattle.theory_addresses.specs.Tables.{contact_of, part_of};
ghost use Rattle.edge_tables.specs.Views.{as_contact, as_child_edge};

use edge_tables::child_edge::ChildEdge;
use edge_tables::contact::Contact;
use edge_tables::steps::Steps;
use edge_tables::tables::Tables;
use std::marker::Brand;
use std::sync::ledger::{Blank, Ledger};

/// Returns the contact of an edge of a child, with a counter of its own.
fn contact_by<L: Ledger>(tables: &Tables, kind: u8, child: u8, edge: u8, blank: Blank) -> Contact
    requires name { blank.name ≡ L.name }
    requires parts { blank.parts ≡ L.parts }
    requires some { 0 < blank.parts }
    requires exists { IsSome (contact_of tables.now kind child edge) }
    ensures { contact_of tables.now kind child edge ≡ Some (as_contact result) }
{
    let mut steps = Steps::<L>::new(blank);
    tables.contact(kind, child, edge, &mut steps)
}

/// Returns the contact of an edge of a child.
pub(crate) fn contact(tables: &Tables, kind: u8, child: u8, edge: u8) -> Contact
    requires exists { IsSome (contact_of tables.now kind child edge) }
    ensures { contact_of tables.now kind child edge ≡ Some (as_contact result) }
{
    contact_by::<Brand>(tables, kind, child, edge, Blank::new(1))
}

/// Returns the child edge that is a part of an edge, with a counter of its own.
fn part_by<L: Ledger>(tables: &Tables, kind: u8, edge: u8, part: u8, blank: Blank) -> ChildEdge
    requires name { blank.name ≡ L.name }
    requires parts { blank.parts ≡ L.parts }
    requires some { 0 < blank.parts }
    requires exists { IsSome (part_of tables.now kind edge part) }
    ensures { part_of tables.now kind edge part ≡ Some (as_child_edge result) }
{
    let mut steps = Steps::<L>::new(blank);
    tables.part(kind, edge, part, &mut steps)
}

/// Returns the child edge that is a part of an edge.
pub(crate) fn part(tables: &Tables, kind: u8, edge: u8, part: u8) -> ChildEdge
    requires exists { IsSome (part_of tables.now kind edge part) }
    ensures { part_of tables.now kind edge part ≡ Some (as_child_edge result) }
{
    part_by::<Brand>(tables, kind, edge, part, Blank::new(1))
}
