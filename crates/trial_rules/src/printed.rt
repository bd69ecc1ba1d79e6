//! The contacts and the uses of a rule as text.
ghost use Rattle.std.specs.Prelude.{◌≡◌, ◌<◌};

use edge_tables::child_edge::ChildEdge;
use edge_tables::contact::Contact;
use edge_tables::steps::Steps;
use edge_tables::tables::Tables;
use std::alloc::{AllocError, Global};
use std::marker::Brand;
use std::sync::ledger::{Blank, Ledger};
use tile_shape::uses::Uses;

/// What an edge of a child is, where there is such an edge.
pub(crate) fn contact_there<L: Ledger>(
    tables: &Tables,
    kind: u8,
    here: ChildEdge,
    steps: &mut Steps<L>,
) -> Option<Contact> {
    if kind >= tables.kinds() || here.child >= tables.children(kind) {
        return None;
    }
    let own = tables.child_kind(kind, here.child);
    if own >= tables.kinds() || here.edge >= tables.edges(own) {
        return None;
    }
    Some(tables.contact(kind, here.child, here.edge, steps))
}

/// A part of an edge, where there is such a part.
fn part_there<L: Ledger>(
    tables: &Tables,
    kind: u8,
    edge: u8,
    part: u8,
    steps: &mut Steps<L>,
) -> Option<ChildEdge> {
    if kind >= tables.kinds() || edge >= tables.edges(kind) {
        return None;
    }
    if part >= tables.parts(kind, edge) {
        return None;
    }
    Some(tables.part(kind, edge, part, steps))
}

/// Puts an edge of a child, where it is the first of two that meet; a mark, where it isn't the part that
/// its contact says.
fn put_contact<L: Ledger>(
    text: &mut String,
    tables: &Tables,
    kind: u8,
    here: ChildEdge,
    steps: &mut Steps<L>,
) -> Result<(), AllocError> {
    match contact_there(tables, kind, here, steps) {
        Some(Contact::Inner { child, edge })
            if here.child < child || (here.child == child && here.edge < edge) => {
            write!(text, "{}{}-{child}{edge} ", here.child, here.edge)
        }
        Some(Contact::Outer { edge, part })
            if part_there(tables, kind, edge, part, steps) != Some(here) => text.push_str("?"),
        _ => Ok(()),
    }
}

/// Puts the parts of an edge, in order.
fn put_parts<L: Ledger>(
    text: &mut String,
    tables: &Tables,
    kind: u8,
    edge: u8,
    steps: &mut Steps<L>,
) -> Result<(), AllocError> {
    write!(text, " {edge}:")?;
    for part in 0..8 {
        if let Some(there) = part_there(tables, kind, edge, part, steps) {
            write!(text, " {}{}", there.child, there.edge)?;
        }
    }
    text.push_str(";")
}

/// The contacts of a kind, with a counter of their own.
fn contacts_from<L: Ledger>(
    alloc: Global,
    tables: &Tables,
    kind: u8,
    blank: Blank,
) -> Result<String, AllocError>
    requires name { blank.name ≡ L.name }
    requires parts { blank.parts ≡ L.parts }
    requires some { 0 < blank.parts }
{
    let mut steps = Steps::<L>::new(blank);
    let mut text = String::new(alloc);
    for child in 0..16 {
        for edge in 0..12 {
            let here = ChildEdge { child, edge };
            put_contact(&mut text, tables, kind, here, &mut steps)?;
        }
    }
    text.push_str("|")?;
    if kind < tables.kinds() {
        for edge in 0..tables.edges(kind) {
            put_parts(&mut text, tables, kind, edge, &mut steps)?;
        }
    }
    Ok(text)
}

/// The contacts of a kind: the edges of children that meet, and the parts of each edge.
pub(crate) fn contacts_text(
    alloc: Global,
    tables: &Tables,
    kind: u8,
) -> Result<String, AllocError> {
    contacts_from::<Brand>(alloc, tables, kind, Blank::new(1))
}

/// The uses of a kind, in order, each as a digit.
pub(crate) fn uses_text(alloc: Global, uses: &Uses, kind: u8) -> Result<String, AllocError> {
    let mut text = String::new(alloc);
    if kind >= uses.kinds() {
        return Ok(text);
    }
    for i in 0..uses.count(kind) {
        if i > 0 {
            text.push_str(" ")?;
        }
        let step = uses.get(kind, i);
        write!(text, "{}/{}", step.child, step.parent)?;
    }
    Ok(text)
}
