//! The clauses that need no memory, in order. Those on single prototiles and edge types come before the
//! children. Those on uses and glue types come after them.
ghost use Rattle.std.specs.Prelude.{◌≡◌, [], ◌∷◌};
ghost use Rattle.theory_addresses.specs.Search.{first_some};
ghost use Rattle.rule_model.specs.Usable.{IsUsable};
ghost use Rattle.rule_model.specs.Views.{as_rule};
ghost use Rattle.dissect_check.specs.Agrees.{fault_in};
ghost use Rattle.dissect_check.specs.FirstFault.{limits as limits_fault, stars as stars_fault, factor as factor_fault};
ghost use Rattle.dissect_check.specs.FirstFault.{mates as mates_fault, lengths as lengths_fault, subdivisions as subdivisions_fault};
ghost use Rattle.dissect_check.specs.FirstFault.{uses as uses_fault, glues as glues_fault};

use crate::check_fault::CheckFault;
use crate::factor::factor;
use crate::glue::glues;
use crate::lengths::lengths;
use crate::limits::limits;
use crate::mates::mates;
use crate::stars::stars;
use crate::subdivisions::subdivisions;
use crate::uses::uses;
use rule_model::rule::Rule;

/// The clauses before those on children: the limits, and then prototiles, the factor and the edge
/// types.
pub(crate) fn before_children(rule: &Rule) -> Result<(), CheckFault>
    ensures { let o = rule.now.order in let l = as_rule rule.now in
        fault_in result ≡ first_some (limits_fault o l ∷ stars_fault o l ∷ factor_fault rule.now.edition o l
        ∷ mates_fault o l ∷ lengths_fault o l ∷ subdivisions_fault o l ∷ []) }
{
    limits(rule)?;
    shapes_and_types(rule)
}

/// The clauses on prototiles, on the factor and on edge types.
fn shapes_and_types(rule: &Rule) -> Result<(), CheckFault>
    requires usable { IsUsable rule.now }
    ensures { let o = rule.now.order in let l = as_rule rule.now in
        fault_in result ≡ first_some (stars_fault o l ∷ factor_fault rule.now.edition o l
        ∷ mates_fault o l ∷ lengths_fault o l ∷ subdivisions_fault o l ∷ []) }
{
    stars(rule)?;
    factor(rule)?;
    mates(rule)?;
    lengths(rule)?;
    subdivisions(rule)
}

/// Tests the clauses after those on children: uses and glue types.
pub(crate) fn behind_children(rule: &Rule) -> Result<(), CheckFault>
    requires usable { IsUsable rule.now }
    ensures { let o = rule.now.order in let l = as_rule rule.now in
        fault_in result ≡ first_some (uses_fault o l ∷ glues_fault o l ∷ []) }
{
    uses(rule)?;
    glues(rule)
}
