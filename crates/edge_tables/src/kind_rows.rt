//! The tables of one kind.
ghost use Rattle.std.specs.Prelude.{◌≡◌, IfOk};

use crate::child_edge::ChildEdge;
use crate::contact::Contact;
use crate::lists::{copied, copied_lists};
use std::alloc::Global;
use tile_shape::no_memory::NoMemory;

/// The tables of one kind.
#[derive(Debug, Drop)]
pub struct KindRows {
    /// The type of each edge, by the number of the edge.
    pub types: Vec<u8>,
    /// The kind of each child, by the number of the child.
    pub children: Vec<u8>,
    /// For each child, the contact of each of its edges.
    pub contacts: Vec<Vec<Contact>>,
    /// For each edge, the child edges that are its parts, in order along it.
    pub parts: Vec<Vec<ChildEdge>>,
}

impl KindRows {
    ghost use Rattle.edge_tables.specs.Views.{as_kind_tables};

    /// Returns equal tables. Err if memory runs out.
    pub fn copy(&self, alloc: Global) -> Result<KindRows, NoMemory>
        ensures { IfOk result (λ rows. as_kind_tables rows ≡ as_kind_tables self.now) }
    {
        Ok(KindRows {
            types: copied(alloc, &self.types)?,
            children: copied(alloc, &self.children)?,
            contacts: copied_lists(alloc, &self.contacts)?,
            parts: copied_lists(alloc, &self.parts)?,
        })
    }
}
