//! The mates of edge types: the types of the same edges traversed backwards.
ghost use Rattle.std.specs.Prelude.{◌≡◌};
ghost use Rattle.rule_model.specs.Usable.{IsUsable};
ghost use Rattle.rule_model.specs.Views.{as_rule};
ghost use Rattle.dissect_check.specs.Agrees.{fault_in};
ghost use Rattle.dissect_check.specs.FirstFault.{mates as mates_fault};

use crate::check_fault::CheckFault;
use rule_model::rule::Rule;

/// Each type is the mate of its mate.
pub(crate) fn mates(rule: &Rule) -> Result<(), CheckFault>
    requires usable { IsUsable rule.now }
    ensures { fault_in result ≡ mates_fault rule.now.order (as_rule rule.now) }
{
    for ty in 0..rule.type_count() {
        if rule.mate(rule.mate(ty)) != ty {
            return Err(CheckFault::BadMate { ty: ty as u8 });
        }
    }
    Ok(())
}
