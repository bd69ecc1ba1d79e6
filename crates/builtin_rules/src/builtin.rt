//! The built-in rules, by name.
ghost use Rattle.std.specs.Prelude.{◌≡◌, IfOk};
ghost use Rattle.rule_model.specs.Tiling.{tiling_listed, children};
ghost use Rattle.builtin_rules.specs.Named.{named, contacts_named, IsWritten};
ghost use Rattle.builtin_rules.specs.Numbers.{fixed_rule};
ghost use Rattle.builtin_rules.specs.Written.{written};
ghost use Rattle.builtin_rules.specs.WrittenTables.{written_tables};

use crate::contacts::{tables_from, uses_from};
use crate::name::Name;
use crate::rule_numbers::RuleNumbers;
use crate::rules::rule_from;
use crate::{ammann_beenker, chair, half_hex, p2, p3};
use edge_tables::laws::coherence_law;
use rule_model::checked::Checked;
use rule_model::rule::Rule;
use std::alloc::Global;
use tile_shape::no_memory::NoMemory;
use tile_shape::uses::Uses;

/// Returns the numbers of the rule of this name, with the contact tables of its geometry.
pub(crate) fn numbers(name: Name) -> RuleNumbers
    ensures rule { written (fixed_rule result) ≡ named name }
    ensures contacts { written_tables (fixed_rule result) ≡ contacts_named name }
{
    match name {
        Name::Chair => chair::NUMBERS,
        Name::P2 => p2::NUMBERS,
        Name::P3 => p3::NUMBERS,
        Name::AmmannBeenker => ammann_beenker::NUMBERS,
        Name::HalfHex => half_hex::NUMBERS,
    }
}

/// Makes the rule of this name, with exactly the numbers of its definition. Err if memory runs out.
pub fn rule_of(alloc: Global, name: Name) -> Result<Rule, NoMemory>
    ensures { IfOk result (IsWritten (named name)) }
{
    rule_from(alloc, &numbers(name))
}

/// Makes the rule of this name as an accepted one, with its contact tables and its uses. Err if memory runs
/// out.
pub fn builtin(alloc: Global, name: Name) -> Result<Checked, NoMemory>
    ensures { IfOk result (IsWritten (named name)) }
{
    coherence_law();
    let numbers = numbers(name);
    let rule = rule_from(alloc, &numbers)?;
    let tables = tables_from(alloc, &numbers)?;
    let uses = uses_from(alloc, &numbers)?;
    Ok(Checked::admit(rule, tables, uses))
}

/// Makes only the uses of the rule of this name. Err if memory runs out.
pub fn uses_of(alloc: Global, name: Name) -> Result<Uses, NoMemory>
    ensures { IfOk result (λ uses. uses ≡ children (tiling_listed (named name))) }
{
    uses_from(alloc, &numbers(name))
}
