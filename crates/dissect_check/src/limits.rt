//! The limits of a rule: the first count or number that passes one.
ghost use Rattle.std.specs.Prelude.{◌≡◌, ◌<◌, ◌≤◌, length};
ghost use Rattle.theory_addresses.specs.Search.{unless};
ghost use Rattle.rule_model.specs.Views.{as_rule};
ghost use Rattle.dissect_check.specs.declared.check_fault.CheckFault.TheVariants.{TooMany};
ghost use Rattle.dissect_check.specs.Agrees.{fault_in};
ghost use Rattle.dissect_check.specs.FirstFault.{type_limits, types_limits, kind_limits, kinds_limits, limits as limits_fault};
ghost use Rattle.dissect_check.specs.Places.{ListsKind, ListsType};

use crate::check_fault::CheckFault;
use crate::fits::{
    children_fit, edges_fit, glue_fits, kinds_fit, parts_fit, types_fit, vertices_fit,
};
use crate::what::What;
use rule_model::rule::Rule;
use rule_model::small::is_small;

/// The fault that this passes its limit, unless it fits.
fn require(fits: bool, what: What) -> Result<(), CheckFault>
    ensures { fault_in result ≡ unless fits (TooMany what) }
{
    if fits {
        Ok(())
    } else {
        Err(CheckFault::TooMany { what })
    }
}

/// No number of the type passes a limit.
fn type_limits(rule: &Rule, ty: usize) -> Result<(), CheckFault>
    requires ty_in { ListsType rule.now ty }
    requires few { ty < 32 }
    ensures { fault_in result ≡ type_limits rule.now.order (as_rule rule.now) ty }
{
    let mate_exists = rule.mate(ty) < rule.type_count();
    require(mate_exists, What::Mate { ty: ty as u8 })?;
    require(parts_fit(rule, ty), What::Parts { ty: ty as u8 })
}

/// No number of any type passes a limit.
fn types_limits(rule: &Rule) -> Result<(), CheckFault>
    requires { length (as_rule rule.now).types ≤ 32 }
    ensures { fault_in result ≡ types_limits rule.now.order (as_rule rule.now) }
{
    for ty in 0..rule.type_count() {
        type_limits(rule, ty)?;
    }
    Ok(())
}

/// No number of the kind passes a limit.
fn kind_limits(rule: &Rule, kind: usize) -> Result<(), CheckFault>
    requires kind_in { ListsKind rule.now kind }
    requires few { kind < 16 }
    ensures { fault_in result ≡ kind_limits rule.now.order (as_rule rule.now) kind }
{
    require(edges_fit(rule, kind), What::Edges { kind: kind as u8 })?;
    require(vertices_fit(rule, kind), What::Vertex { kind: kind as u8 })?;
    require(children_fit(rule, kind), What::Child { kind: kind as u8 })
}

/// No number of any kind passes a limit.
fn kinds_limits(rule: &Rule) -> Result<(), CheckFault>
    requires { length (as_rule rule.now).kinds ≤ 16 }
    ensures { fault_in result ≡ kinds_limits rule.now.order (as_rule rule.now) }
{
    for kind in 0..rule.kind_count() {
        kind_limits(rule, kind)?;
    }
    Ok(())
}

/// No count and no number passes a limit.
pub(crate) fn limits(rule: &Rule) -> Result<(), CheckFault>
    ensures { fault_in result ≡ limits_fault rule.now.order (as_rule rule.now) }
{
    require(kinds_fit(rule), What::Kinds)?;
    require(types_fit(rule), What::Types)?;
    require(is_small(rule.order, &rule.factor), What::Factor)?;
    require(glue_fits(rule), What::Glue)?;
    types_limits(rule)?;
    kinds_limits(rule)
}
