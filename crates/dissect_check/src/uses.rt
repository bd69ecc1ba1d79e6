//! The uses of kinds: each is the kind of a child.
ghost use Rattle.std.specs.Prelude.{◌≡◌};
ghost use Rattle.theory_edge_to_edge.specs.Uses.{is_used};
ghost use Rattle.rule_model.specs.Usable.{IsUsable};
ghost use Rattle.rule_model.specs.Views.{as_rule, rule_of};
ghost use Rattle.dissect_check.specs.Agrees.{fault_in};
ghost use Rattle.dissect_check.specs.FirstFault.{uses as uses_fault};

use crate::check_fault::CheckFault;
use rule_model::rule::Rule;

/// Returns true if some kind has a child of this kind.
fn is_used(rule: &Rule, kind: usize) -> bool
    ensures { result ≡ is_used (rule_of rule.now) kind }
{
    for parent in 0..rule.kind_count() {
        for child in 0..rule.child_count(parent) {
            if usize::from(rule.child(parent, child).kind) == kind {
                return true;
            }
        }
    }
    false
}

/// Each kind has a use.
pub(crate) fn uses(rule: &Rule) -> Result<(), CheckFault>
    requires usable { IsUsable rule.now }
    ensures { fault_in result ≡ uses_fault rule.now.order (as_rule rule.now) }
{
    for kind in 0..rule.kind_count() {
        if !is_used(rule, kind) {
            return Err(CheckFault::Unused { kind: kind as u8 });
        }
    }
    Ok(())
}
