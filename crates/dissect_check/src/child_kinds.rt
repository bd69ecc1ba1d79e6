//! The uses of a rule's kinds.
ghost use Rattle.std.specs.Prelude.{◌≡◌, map, IfOk};
ghost use Rattle.theory_edge_to_edge.specs.EdgeToEdge.{HasEachUsed};
ghost use Rattle.rule_model.specs.Tiling.{tiling_of, children};
ghost use Rattle.rule_model.specs.Usable.{IsUsable};
ghost use Rattle.rule_model.specs.Views.{rule_of};

use rule_model::rule::Rule;
use std::alloc::Global;
use tile_shape::no_memory::NoMemory;
use tile_shape::uses::Uses;

/// The kinds of each kind's children.
fn child_kinds(alloc: Global, rule: &Rule) -> Result<Vec<Vec<u8>>, NoMemory>
    ensures { IfOk result (λ lists. map (λ list. list.items) lists.items ≡ children (tiling_of rule.now)) }
{
    let mut lists = Vec::with_capacity(alloc, rule.kinds.len())?;
    for row in &rule.kinds {
        lists.push(row.children.iter().map(|child| child.kind).collect(alloc)?)?;
    }
    Ok(lists)
}

/// The uses of a rule's kinds, each of which has one.
pub(crate) fn uses_of_kinds(alloc: Global, rule: &Rule) -> Result<Uses, NoMemory>
    requires usable { IsUsable rule.now }
    requires each_used { HasEachUsed (rule_of rule.now) }
    ensures { IfOk result (λ uses. uses ≡ children (tiling_of rule.now)) }
{
    let kinds = child_kinds(alloc, rule)?;
    Ok(Uses::of(kinds))
}
