//! Copies of lists.
ghost use Rattle.std.specs.Prelude.{◌≡◌, map, IfOk};

use std::alloc::Global;
use tile_shape::no_memory::NoMemory;

/// Returns a copy of the list. Err if memory runs out.
pub fn copied<T: Copy>(alloc: Global, list: &Vec<T>) -> Result<Vec<T>, NoMemory>
    ensures { IfOk result (λ copy. copy.items ≡ list.now.items) }
{
    let mut copy = Vec::new(alloc);
    copy.extend_from_slice(list)?;
    Ok(copy)
}

/// Returns a copy of a list of lists. Err if memory runs out.
pub fn copied_lists<T: Copy>(alloc: Global, lists: &Vec<Vec<T>>) -> Result<Vec<Vec<T>>, NoMemory>
    ensures { IfOk result (λ copy. map (λ list. list.items) copy.items ≡ map (λ list. list.items)
        lists.now.items) }
{
    let mut copy = Vec::new(alloc);
    for list in lists {
        copy.push(copied(alloc, list)?)?;
    }
    Ok(copy)
}
