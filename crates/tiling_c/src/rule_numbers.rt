//! The numbers of a rule.
ghost use Rattle.std.specs.Prelude.{◌≡◌, length};
ghost use Rattle.cyclo_points.specs.Order.{points_of};
ghost use Rattle.rule_model.specs.Tiling.{listed};
ghost use Rattle.rule_model.specs.Views.{rule_of};
ghost use Rattle.c_values.specs.Rules.{rule_as};

use c_values::plain_rule_numbers::PlainRuleNumbers;
use c_values::shared_machine::SharedMachine;
use tile_place::machine::Machine;

/// Returns the number of kinds of a machine's rule.
pub(crate) fn kinds_of(machine: &Machine) -> u8
    ensures { result ≡ length (rule_of machine.now).kinds }
{
    machine.checked().rule().kind_count() as u8
}

/// Returns the order n of the rule: 4, 6, 8 or 10. Points are integer combinations of the powers of ζ =
/// e^(2πi/n), and turns are below n.
#[unsafe(no_mangle)]
pub extern "C" fn tiling_order(t: SharedMachine) -> u8
    ensures { result ≡ (points_of t.rule.order).order }
{
    t.get().checked().order().n()
}

/// Returns the number of kinds of the rule. They are numbered from 0.
#[unsafe(no_mangle)]
pub extern "C" fn tiling_kinds(t: SharedMachine) -> u8
    ensures { result ≡ length (rule_of t.rule).kinds }
{
    kinds_of(t.get())
}

/// Puts all the numbers of the rule.
#[unsafe(no_mangle)]
pub extern "C" fn tiling_rule(t: SharedMachine, out: &mut PlainRuleNumbers)
    // Each number is the rule's, and all numbers after its lists are 0.
    ensures { out.new ≡ rule_as (listed t.rule) }
{
    out.write(t.get().checked());
}
