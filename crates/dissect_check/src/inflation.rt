//! Inflated prototiles.

ghost use Rattle.std.specs.Prelude.{◌<◌, length, IfOk};
ghost use Rattle.rule_model.specs.Usable.{IsUsable};
ghost use Rattle.rule_model.specs.Views.{rule_of};
ghost use Rattle.dissect_check.specs.Views.{IsInflated};
ghost use Rattle.dissect_check.specs.Places.{IsKindOf};

use crate::child_edges::child_edges;
use crate::inflated::Inflated;
use crate::lying::all_lies;
use crate::wholes::inflated_edges;
use rule_model::rule::Rule;
use std::alloc::Global;
use tile_shape::no_memory::NoMemory;

/// The inflated prototile of a kind.
pub(crate) fn inflated(alloc: Global, rule: &Rule, kind: usize) -> Result<Inflated, NoMemory>
    requires usable { IsUsable rule.now }
    requires kind_in { IsKindOf rule.now kind }
    ensures { IfOk result (λ i. IsInflated rule.now kind i) }
{
    let wholes = inflated_edges(alloc, rule, kind)?;
    let edges = child_edges(alloc, rule, kind)?;
    let lies = all_lies(alloc, rule, &edges, &wholes)?;
    Ok(Inflated {
        wholes,
        edges,
        lies,
    })
}
