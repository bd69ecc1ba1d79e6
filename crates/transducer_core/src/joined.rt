//! The lists of contact tables, one after another.
ghost use Rattle.std.specs.Prelude.{◌≡◌, ℕ, List, [], ◌∷◌, ◌++◌, OnOk, IfOk};
ghost use Rattle.transducer_core.specs.Flat.{lists_of};
ghost use Rattle.transducer_core.specs.Merging.{AreBlocksKept};

use edge_tables::tables::Tables;
use std::alloc::Global;
use tile_shape::no_memory::NoMemory;

/// Lists of numbers, one after another, and the end of each.
#[derive(Drop)]
pub(crate) struct Joined {
    pub(crate) items: Vec<u8>,
    pub(crate) ends: Vec<usize>,
}

/// Appends a list to the others.
fn add(joined: &mut Joined, list: &Vec<u8>) -> Result<(), NoMemory>
    ensures { OnOk result ((lists : List (List ℕ))
        → AreBlocksKept lists joined.old.items.items joined.old.ends.items
        → AreBlocksKept (lists ++ list.now.items ∷ []) joined.new.items.items joined.new.ends.items) }
{
    joined.items.extend_from_slice(list)?;
    joined.ends.push(joined.items.len())?;
    Ok(())
}

/// Joins four sorts of lists, one after another. They are the mates, the types into which each type is cut,
/// the types of the edges of each kind, and the kinds of the children of each kind.
pub(crate) fn join(alloc: Global, tables: &Tables) -> Result<Joined, NoMemory>
    ensures { IfOk result (λ joined. AreBlocksKept (lists_of tables.now) joined.items.items
        joined.ends.items) }
{
    let mut joined = Joined {
        items: Vec::with_capacity(alloc, 64)?,
        ends: Vec::with_capacity(alloc, 32)?,
    };
    add(&mut joined, tables.mates())?;
    let subs = tables.subs();
    for sub in subs {
        add(&mut joined, sub)?;
    }
    let rows = tables.rows();
    for row in rows {
        add(&mut joined, &row.types)?;
    }
    for row in rows {
        add(&mut joined, &row.children)?;
    }
    Ok(joined)
}
