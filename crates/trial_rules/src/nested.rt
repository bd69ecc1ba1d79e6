//! The plain program that crosses an edge: up and down over nested contact tables.
use edge_tables::child_edge::ChildEdge;
use edge_tables::contact::Contact;
use edge_tables::kind_rows::KindRows;
use tile_shape::address::Address;
use tile_shape::step::Step;
use transducer_core::crossing::Crossing;
use transducer_core::outside::Outside;

/// What is across an edge, and how many entries were looked up.
#[derive(Drop)]
pub struct Crossed {
    pub answer: Result<Crossing, Outside>,
    pub looks: usize,
}

/// What an edge of a child is.
fn contact(rows: &Vec<KindRows>, child: Step, edge: u8) -> Option<Contact> {
    let row = rows.get(usize::from(child.parent))?;
    let contacts = row.contacts.get(usize::from(child.child))?;
    contacts.get(usize::from(edge)).copied()
}

/// The part of an edge that has this number on the other side.
fn part_across(rows: &Vec<KindRows>, kind: u8, edge: u8, part: u8) -> Option<ChildEdge> {
    let row = rows.get(usize::from(kind))?;
    let parts = row.parts.get(usize::from(edge))?;
    let mut backwards = parts.iter().rev();
    backwards.nth(usize::from(part)).copied()
}

/// Puts a child at a level, and answers its kind.
fn put(rows: &Vec<KindRows>, there: &mut Address, level: usize, step: Step) -> Option<u8> {
    *there.digits.get_mut(level)? = step;
    let row = rows.get(usize::from(step.parent))?;
    row.children.get(usize::from(step.child)).copied()
}

/// Down from the child that was met at a level, along the parts.
fn down(
    rows: &Vec<KindRows>,
    addr: &Address,
    level: usize,
    met: ChildEdge,
    parts: &[u8],
) -> Option<Crossing> {
    let mut there = addr.copy();
    let parent = addr.digits.as_slice().get(level)?.parent;
    let child = met.child;
    let mut edge = met.edge;
    there.kind = put(rows, &mut there, level, Step { child, parent })?;
    for below in (0..level).rev() {
        let parent = there.kind;
        let next = part_across(rows, parent, edge, *parts.get(below)?)?;
        let child = next.child;
        edge = next.edge;
        there.kind = put(rows, &mut there, below, Step { child, parent })?;
    }
    Some(Crossing { addr: there, edge })
}

/// Returns what is across an edge, or None if an entry is missing.
pub fn cross(rows: &Vec<KindRows>, addr: &Address, edge: u8) -> Option<Crossed> {
    let mut parts = [0u8; 64];
    let mut outside = Outside { edge, part: 0 };
    for (level, step) in addr.digits.as_slice().iter().enumerate() {
        match contact(rows, *step, outside.edge)? {
            Contact::Inner { child, edge } => {
                let there = down(rows, addr, level, ChildEdge { child, edge }, &parts)?;
                return Some(Crossed {
                    answer: Ok(there),
                    looks: level.saturating_mul(2).saturating_add(1),
                });
            }
            Contact::Outer { edge, part } => {
                *parts.get_mut(level)? = part;
                outside = Outside { edge, part };
            }
        }
    }
    Some(Crossed {
        answer: Err(outside),
        looks: addr.digits.len(),
    })
}
