//! The check of a rule.
ghost use Rattle.std.specs.Prelude.{◌≡◌, ◌↔◌, None, [], ◌∷◌, IfOk};
ghost use Rattle.theory_addresses.specs.Search.{first_some};
ghost use Rattle.rule_model.specs.Accepted.{IsAccepted};
ghost use Rattle.rule_model.specs.Usable.{IsUsable};
ghost use Rattle.rule_model.specs.Views.{as_rule};
ghost use Rattle.dissect_check.specs.Agrees.{Agrees, IsOkOrMemory};
ghost use Rattle.dissect_check.specs.Parts.{AreTables};
ghost use Rattle.dissect_check.specs.FirstFault.{loose_edges as loose_fault, boundaries as boundary_fault, uses as uses_fault, glues as glues_fault, first_fault};

use crate::boundaries::boundaries;
use crate::check_fault::CheckFault;
use crate::child_kinds::uses_of_kinds;
use crate::clauses::{before_children, behind_children};
use crate::loose::loose_edges;
use crate::tables::tables_of;
use cyclo_points::points_law;
use edge_tables::kind_rows::KindRows;
use rule_model::checked::Checked;
use rule_model::rule::Rule;
use std::alloc::Global;

/// Returns the contact tables of each kind, if no clause on children and none after them fails. It keeps all
/// inflated prototiles, since every loose edge of every kind is a fault before any boundary.
fn tables_of_kinds(alloc: Global, rule: &Rule) -> Result<Vec<KindRows>, CheckFault>
    requires usable { IsUsable rule.now }
    ensures fault { let o = rule.now.order in let l = as_rule rule.now in
        Agrees result (first_some (loose_fault o l ∷ boundary_fault o l ∷ uses_fault o l ∷ glues_fault o l
        ∷ [])) }
    ensures tables { IfOk result (λ rows. AreTables rule.now rows.items) }
{
    let parents = loose_edges(alloc, rule)?;
    let rows = boundaries(alloc, rule, parents.as_slice())?;
    behind_children(rule)?;
    Ok(rows)
}

/// The checked rule, or the first fault.
fn checked(alloc: Global, rule: Rule) -> Result<Checked, CheckFault>
    ensures rule_given { IfOk result (λ checked. checked ≡ rule) }
    ensures fault { Agrees result (first_fault rule) }
{
    points_law(rule.order);
    before_children(&rule)?;
    let rows = tables_of_kinds(alloc, &rule)?;
    let tables = tables_of(alloc, &rule, rows)?;
    let uses = uses_of_kinds(alloc, &rule)?;
    Ok(Checked::admit(rule, tables, uses))
}

/// States that a rule is accepted if and only if its check finds no fault.
pub fn acceptance_law(rule: &Rule)
    ensures { (first_fault rule.now ≡ None) ↔ IsAccepted rule.now }
{}

/// Checks a rule, which may have any numbers. It returns the rule as an accepted one, with its contact tables
/// and its uses, if and only if the ten clauses hold, unless memory runs out.
///
/// # Errors
///
/// The fault of the first clause that fails, at its first place: the limits in the order of their list,
/// otherwise the least kind, child, edge, part or type. The rule is dropped. `NoMemory` if memory ran out, at
/// any point.
pub fn check(alloc: Global, rule: Rule) -> Result<Checked, CheckFault>
    ensures rule_given { IfOk result (λ checked. checked ≡ rule) }
    ensures accepted { IfOk result (λ _. IsAccepted rule) }
    ensures complete { IsAccepted rule → IsOkOrMemory result }
    ensures fault { Agrees result (first_fault rule) }
{
    acceptance_law(&rule);
    checked(alloc, rule)
}
