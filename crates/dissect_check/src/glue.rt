//! Glue types: along an edge of one, two tiles of two kinds are glued into one.

ghost use Rattle.std.specs.Prelude.{◌≡◌, ℕ, ◌<◌, ◌≤◌, ◌||◌, length, nat_eq};
ghost use Rattle.std.specs.List.{list_any};
ghost use Rattle.theory_substitution.specs.RuleParts.{mate, edge_types};
ghost use Rattle.theory_edge_to_edge.specs.Glue.{holders, is_glued_before, glues_halves};
ghost use Rattle.rule_model.specs.Usable.{IsUsable};
ghost use Rattle.rule_model.specs.Views.{as_rule, rule_of};
ghost use Rattle.dissect_check.specs.declared.few.Few.TheVariants.{One};
ghost use Rattle.dissect_check.specs.Agrees.{fault_in};
ghost use Rattle.dissect_check.specs.Few.{few_of};
ghost use Rattle.dissect_check.specs.FirstFault.{glues as glues_fault};
ghost use Rattle.dissect_check.specs.Places.{IsTypeOf, IsKindOf};

use crate::check_fault::CheckFault;
use crate::few::Few;
use rule_model::rule::Rule;

/// The kind that has the one edge of a type; or that no edge has it, or more than one.
fn holders(rule: &Rule, ty: usize) -> Few<usize>
    ensures few { result ≡ few_of (holders (rule_of rule.now) ty) }
    ensures kind_exists { (k : ℕ) → result ≡ One k → IsKindOf rule.now k }
{
    let mut found = Few::None;
    for kind in 0..rule.kind_count() {
        for edge in 0..rule.edge_count(kind) {
            if rule.edge_type(kind, edge) == ty {
                found = found.more(kind);
            }
        }
    }
    found
}

/// Returns true if the kind has an edge of the type or its mate.
fn has_edge_along(rule: &Rule, kind: usize, ty: usize) -> bool
    requires kind_in { IsKindOf rule.now kind }
    requires ty_in { IsTypeOf rule.now ty }
    ensures { result ≡ list_any (λ t. nat_eq t ty || nat_eq t (mate (rule_of rule.now) ty))
        (edge_types (rule_of rule.now) kind) }
{
    let mate = rule.mate(ty);
    for edge in 0..rule.edge_count(kind) {
        let found = rule.edge_type(kind, edge);
        if found == ty || found == mate {
            return true;
        }
    }
    false
}

/// Returns true if the kind has an edge of one of the first n glue types or their mates.
fn is_glued_before(rule: &Rule, n: usize, kind: usize) -> bool
    requires usable { IsUsable rule.now }
    requires kind_in { IsKindOf rule.now kind }
    requires n_within { n ≤ length (rule_of rule.now).glue }
    ensures { result ≡ is_glued_before (rule_of rule.now) n kind }
{
    for i in 0..n {
        if has_edge_along(rule, kind, rule.glue_type(i)) {
            return true;
        }
    }
    false
}

/// Returns true if the glue type glues two halves: one edge has it and one its mate, of two kinds of which
/// neither is glued along an earlier one.
fn glues_halves(rule: &Rule, i: usize) -> bool
    requires usable { IsUsable rule.now }
    requires i_in { i < length (rule_of rule.now).glue }
    ensures { result ≡ glues_halves (rule_of rule.now) i }
{
    let ty = rule.glue_type(i);
    let mate = rule.mate(ty);
    if mate == ty {
        return false;
    }
    let Few::One(first) = holders(rule, ty) else {
        return false;
    };
    let Few::One(second) = holders(rule, mate) else {
        return false;
    };
    first != second && !is_glued_before(rule, i, first) && !is_glued_before(rule, i, second)
}

/// Each glue type glues two halves.
pub(crate) fn glues(rule: &Rule) -> Result<(), CheckFault>
    requires usable { IsUsable rule.now }
    ensures { fault_in result ≡ glues_fault rule.now.order (as_rule rule.now) }
{
    for i in 0..rule.glue_count() {
        if !glues_halves(rule, i) {
            return Err(CheckFault::GlueWrong {
                ty: rule.glue_type(i) as u8,
            });
        }
    }
    Ok(())
}
