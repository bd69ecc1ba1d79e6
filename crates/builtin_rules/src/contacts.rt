//! Makes contact tables and uses from the numbers of a rule. Each call fails only if memory runs out.
ghost use Rattle.std.specs.Prelude.{◌≡◌, map, IfOk};
ghost use Rattle.edge_tables.specs.Views.{as_kind_tables};
ghost use Rattle.theory_addresses.specs.Coherent.{IsCoherent};
ghost use Rattle.theory_addresses.specs.Tables.{child_kinds};
ghost use Rattle.tile_shape.specs.Usable.{AreUsable};
ghost use Rattle.builtin_rules.specs.Numbers.{fixed_kind, fixed_rule};
ghost use Rattle.builtin_rules.specs.WrittenTables.{written_tables, written_tables_of_kind};

use crate::kind_numbers::KindNumbers;
use crate::rule_numbers::RuleNumbers;
use edge_tables::kind_rows::KindRows;
use edge_tables::tables::Tables;
use rule_model::child::Child;
use std::alloc::Global;
use tile_shape::no_memory::NoMemory;
use tile_shape::uses::Uses;

/// Returns the kinds of the children.
fn kinds_of(alloc: Global, children: &[Child]) -> Result<Vec<u8>, NoMemory>
    ensures { IfOk result (λ kinds. kinds.items ≡ map (λ child. child.kind) children.now) }
{
    let mut kinds = Vec::with_capacity(alloc, children.len())?;
    for child in children {
        kinds.push(child.kind)?;
    }
    Ok(kinds)
}

/// Copies a list of lists into memory of its own.
fn copied_lists<T: Copy>(alloc: Global, lists: &[&[T]]) -> Result<Vec<Vec<T>>, NoMemory>
    ensures { IfOk result (λ copies. map (λ copy. copy.items) copies.items ≡ map (λ list. list.now)
        lists.now) }
{
    let mut copies = Vec::with_capacity(alloc, lists.len())?;
    for list in lists {
        let mut copy = Vec::new(alloc);
        copy.extend_from_slice(list)?;
        copies.push(copy)?;
    }
    Ok(copies)
}

/// Makes the contact table of a kind.
fn kind_contacts(alloc: Global, numbers: &KindNumbers) -> Result<KindRows, NoMemory>
    ensures { IfOk result (λ rows. as_kind_tables rows ≡ written_tables_of_kind (fixed_kind numbers.now)) }
{
    Ok(KindRows {
        types: numbers.edges.to_vec(alloc)?,
        children: kinds_of(alloc, numbers.children)?,
        contacts: copied_lists(alloc, numbers.contacts)?,
        parts: copied_lists(alloc, numbers.parts)?,
    })
}

/// Makes the contact tables from the constants, which must be coherent.
pub(crate) fn tables_from(alloc: Global, numbers: &RuleNumbers) -> Result<Tables, NoMemory>
    requires coherent { IsCoherent (written_tables (fixed_rule numbers.now)) }
    ensures { IfOk result (λ tables. tables ≡ written_tables (fixed_rule numbers.now)) }
{
    let mut mates = Vec::with_capacity(alloc, numbers.types.len())?;
    let mut subs = Vec::with_capacity(alloc, numbers.types.len())?;
    for edge_type in numbers.types {
        mates.push(edge_type.mate)?;
        subs.push(edge_type.parts.to_vec(alloc)?)?;
    }
    let mut rows = Vec::with_capacity(alloc, numbers.kinds.len())?;
    for kind in numbers.kinds {
        rows.push(kind_contacts(alloc, kind)?)?;
    }
    Ok(Tables::new(mates, subs, rows))
}

/// Makes the uses from the constants, whose child kinds must be usable.
pub(crate) fn uses_from(alloc: Global, numbers: &RuleNumbers) -> Result<Uses, NoMemory>
    requires usable { AreUsable (child_kinds (written_tables (fixed_rule numbers.now))) }
    ensures { IfOk result (λ uses. uses ≡ child_kinds (written_tables (fixed_rule numbers.now))) }
{
    let mut rows = Vec::with_capacity(alloc, numbers.kinds.len())?;
    for kind in numbers.kinds {
        rows.push(kinds_of(alloc, kind.children)?)?;
    }
    Ok(Uses::of(rows))
}
