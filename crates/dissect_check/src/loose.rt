//! The clause that no child edge is loose, and the inflated prototiles of which it speaks.

ghost use Rattle.std.specs.Prelude.{◌≡◌, ◌<◌, length, IfOk};
ghost use Rattle.rule_model.specs.Usable.{IsUsable};
ghost use Rattle.rule_model.specs.Views.{as_rule, rule_of};
ghost use Rattle.dissect_check.specs.FirstFault.{loose_of_kind, loose_edges};
ghost use Rattle.dissect_check.specs.Agrees.{Agrees};
ghost use Rattle.dissect_check.specs.Views.{IsInflated, AreInflated};
ghost use Rattle.dissect_check.specs.Places.{IsKindOf};

use crate::check_fault::CheckFault;
use crate::inflated::Inflated;
use crate::inflation::inflated;
use crate::lie::Lie;
use rule_model::rule::Rule;
use std::alloc::Global;

/// The inflated prototile of a kind, or its first loose child edge.
fn loose_of_kind(alloc: Global, rule: &Rule, kind: usize) -> Result<Inflated, CheckFault>
    requires usable { IsUsable rule.now }
    requires kind_in { IsKindOf rule.now kind }
    ensures fault { Agrees result (loose_of_kind rule.now.order (as_rule rule.now) kind) }
    ensures inflated { IfOk result (λ parent. IsInflated rule.now kind parent) }
{
    let parent = inflated(alloc, rule, kind)?;
    for i in 0..parent.edges.len() {
        if let Lie::Loose = parent.lies[i] {
            let edge = parent.edges[i];
            return Err(CheckFault::ChildEdgeLoose {
                kind: kind as u8,
                child: edge.child,
                edge: edge.edge,
            });
        }
    }
    Ok(parent)
}

/// The inflated prototiles of all kinds, or the first loose child edge, kind by kind.
pub(crate) fn loose_edges(alloc: Global, rule: &Rule) -> Result<Vec<Inflated>, CheckFault>
    requires usable { IsUsable rule.now }
    ensures fault { Agrees result (loose_edges rule.now.order (as_rule rule.now)) }
    ensures inflated { IfOk result (λ parents. AreInflated rule.now (length (rule_of rule.now).kinds)
        parents.items) }
{
    let mut parents = Vec::with_capacity(alloc, rule.kind_count())?;
    for kind in 0..rule.kind_count() {
        parents.push(loose_of_kind(alloc, rule, kind)?)?;
    }
    Ok(parents)
}
