//! The subdivisions of edge types: those of mates mirror each other.
ghost use Rattle.std.specs.Prelude.{◌≡◌, ◌<◌, length};
ghost use Rattle.theory_edge_to_edge.specs.EdgeTypes.{is_mirrored};
ghost use Rattle.rule_model.specs.Usable.{IsUsable};
ghost use Rattle.rule_model.specs.Views.{as_rule, rule_of};
ghost use Rattle.dissect_check.specs.Agrees.{fault_in};
ghost use Rattle.dissect_check.specs.FirstFault.{subdivisions as subdivisions_fault};
ghost use Rattle.dissect_check.specs.Places.{IsTypeOf};

use crate::check_fault::CheckFault;
use rule_model::rule::Rule;

/// Returns true if the mate's subdivision is the type's, reversed, each part replaced by its mate.
fn is_mirrored(rule: &Rule, ty: usize) -> bool
    requires usable { IsUsable rule.now }
    requires ty_in { IsTypeOf rule.now ty }
    ensures { result ≡ is_mirrored (rule_of rule.now) ty }
{
    let mate = rule.mate(ty);
    let count = rule.part_count(ty);
    if rule.part_count(mate) != count {
        return false;
    }
    for i in 0..count {
        if rule.part(mate, i) != rule.mate(rule.part(ty, count - 1 - i)) {
            return false;
        }
    }
    true
}

/// The mate's subdivision is each type's, mirrored.
pub(crate) fn subdivisions(rule: &Rule) -> Result<(), CheckFault>
    requires usable { IsUsable rule.now }
    ensures { fault_in result ≡ subdivisions_fault rule.now.order (as_rule rule.now) }
{
    for ty in 0..rule.type_count() {
        if !is_mirrored(rule, ty) {
            return Err(CheckFault::BadSubdivision { ty: ty as u8 });
        }
    }
    Ok(())
}
