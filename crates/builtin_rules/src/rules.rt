//! Makes rules from their numbers. Each call fails only if memory runs out.
ghost use Rattle.std.specs.Prelude.{◌≡◌, map, IfOk};
ghost use Rattle.rule_model.specs.Views.{as_type, as_kind};
ghost use Rattle.builtin_rules.specs.Named.{IsWritten};
ghost use Rattle.builtin_rules.specs.Numbers.{fixed_type, fixed_kind, fixed_rule};
ghost use Rattle.builtin_rules.specs.Written.{written, written_type, written_kind};

use crate::kind_numbers::KindNumbers;
use crate::rule_numbers::RuleNumbers;
use crate::type_numbers::TypeNumbers;
use rule_model::kind_row::KindRow;
use rule_model::rule::Rule;
use rule_model::type_row::TypeRow;
use std::alloc::Global;
use tile_shape::no_memory::NoMemory;

/// Makes an edge type.
fn type_row(alloc: Global, numbers: &TypeNumbers) -> Result<TypeRow, NoMemory>
    ensures { IfOk result (λ row. as_type row ≡ written_type (fixed_type numbers.now)) }
{
    Ok(TypeRow {
        mate: numbers.mate,
        parts: numbers.parts.to_vec(alloc)?,
    })
}

/// Makes the edge types.
fn type_rows(alloc: Global, types: &[TypeNumbers]) -> Result<Vec<TypeRow>, NoMemory>
    ensures { IfOk result (λ rows. map as_type rows.items ≡ map written_type (map fixed_type types.now)) }
{
    let mut rows = Vec::with_capacity(alloc, types.len())?;
    for edge_type in types {
        rows.push(type_row(alloc, edge_type)?)?;
    }
    Ok(rows)
}

/// Makes a kind.
fn kind_row(alloc: Global, numbers: &KindNumbers) -> Result<KindRow, NoMemory>
    ensures { IfOk result (λ row. as_kind row ≡ written_kind (fixed_kind numbers.now)) }
{
    Ok(KindRow {
        vertices: numbers.vertices.to_vec(alloc)?,
        edges: numbers.edges.to_vec(alloc)?,
        children: numbers.children.to_vec(alloc)?,
    })
}

/// Makes the kinds.
fn kind_rows(alloc: Global, kinds: &[KindNumbers]) -> Result<Vec<KindRow>, NoMemory>
    ensures { IfOk result (λ rows. map as_kind rows.items ≡ map written_kind (map fixed_kind kinds.now)) }
{
    let mut rows = Vec::with_capacity(alloc, kinds.len())?;
    for kind in kinds {
        rows.push(kind_row(alloc, kind)?)?;
    }
    Ok(rows)
}

/// Makes the rule with these numbers.
pub(crate) fn rule_from(alloc: Global, numbers: &RuleNumbers) -> Result<Rule, NoMemory>
    ensures { IfOk result (IsWritten (written (fixed_rule numbers.now))) }
{
    Ok(Rule {
        edition: numbers.edition,
        order: numbers.order,
        factor: numbers.factor,
        glue: numbers.glue.to_vec(alloc)?,
        types: type_rows(alloc, numbers.types)?,
        kinds: kind_rows(alloc, numbers.kinds)?,
    })
}
