//! The clause that the boundary child edges along each inflated edge are its parts, and the contact
//! tables that they give.
ghost use Rattle.std.specs.Prelude.{◌≡◌, length, IfOk};
ghost use Rattle.theory_edge_to_edge.specs.Contacts.{tables_of_kind};
ghost use Rattle.cyclo_points.specs.Order.{points_of};
ghost use Rattle.edge_tables.specs.Views.{as_kind_tables};
ghost use Rattle.rule_model.specs.Usable.{IsUsable};
ghost use Rattle.rule_model.specs.Views.{as_rule, rule_of};
ghost use Rattle.dissect_check.specs.Agrees.{Agrees};
ghost use Rattle.dissect_check.specs.FirstFault.{boundary_of_kind, boundaries};
ghost use Rattle.dissect_check.specs.Views.{IsInflated, AreInflated};
ghost use Rattle.dissect_check.specs.Parts.{AreParts, AreTables};
ghost use Rattle.dissect_check.specs.Places.{IsKindOf};

use crate::boundary::parts_of_edge;
use crate::check_fault::CheckFault;
use crate::contacts::{contacts_of_kind, kinds_of_children, types_of_kind};
use crate::inflated::Inflated;
use edge_tables::child_edge::ChildEdge;
use edge_tables::kind_rows::KindRows;
use rule_model::rule::Rule;
use std::alloc::Global;

/// The parts of each edge of a kind, or the first that fails.
fn parts_of_kind(
    alloc: Global,
    rule: &Rule,
    parent: &Inflated,
    kind: usize,
) -> Result<Vec<Vec<ChildEdge>>, CheckFault>
    requires usable { IsUsable rule.now }
    requires kind_exists { IsKindOf rule.now kind }
    requires inflated { IsInflated rule.now kind parent.now }
    ensures fault { Agrees result (boundary_of_kind rule.now.order (as_rule rule.now) kind) }
    ensures parts { IfOk result (λ parts. AreParts rule.now kind parts.items) }
{
    let mut parts = Vec::with_capacity(alloc, rule.edge_count(kind))?;
    for edge in 0..rule.edge_count(kind) {
        parts.push(parts_of_edge(alloc, rule, parent, kind, edge)?)?;
    }
    Ok(parts)
}

/// The contact tables of a kind, or its first part that fails.
fn tables_of_kind(
    alloc: Global,
    rule: &Rule,
    parent: &Inflated,
    kind: usize,
) -> Result<KindRows, CheckFault>
    requires usable { IsUsable rule.now }
    requires kind_exists { IsKindOf rule.now kind }
    requires inflated { IsInflated rule.now kind parent.now }
    ensures fault { Agrees result (boundary_of_kind rule.now.order (as_rule rule.now) kind) }
    ensures tables { IfOk result (λ rows. as_kind_tables rows
        ≡ tables_of_kind (points_of rule.now.order) (rule_of rule.now) kind) }
{
    let parts = parts_of_kind(alloc, rule, parent, kind)?;
    Ok(KindRows {
        types: types_of_kind(alloc, rule, kind)?,
        children: kinds_of_children(alloc, rule, kind)?,
        contacts: contacts_of_kind(alloc, rule, parent, kind, &parts)?,
        parts,
    })
}

/// The contact tables of each kind, from the inflated prototiles, or the first part that fails, kind by kind.
pub(crate) fn boundaries(
    alloc: Global,
    rule: &Rule,
    parents: &[Inflated],
) -> Result<Vec<KindRows>, CheckFault>
    requires usable { IsUsable rule.now }
    requires inflated { AreInflated rule.now (length (rule_of rule.now).kinds) parents.now }
    ensures fault { Agrees result (boundaries rule.now.order (as_rule rule.now)) }
    ensures tables { IfOk result (λ rows. AreTables rule.now rows.items) }
{
    let mut rows = Vec::with_capacity(alloc, rule.kind_count())?;
    for kind in 0..rule.kind_count() {
        rows.push(tables_of_kind(alloc, rule, &parents[kind], kind)?)?;
    }
    Ok(rows)
}
