//! The contact tables of a rule.
ghost use Rattle.std.specs.Prelude.{◌≡◌, map, IfOk};
ghost use Rattle.theory_substitution.specs.Rule.{EdgeType};
ghost use Rattle.theory_addresses.specs.Coherent.{IsCoherent};
ghost use Rattle.theory_edge_to_edge.specs.Contacts.{tables_of};
ghost use Rattle.cyclo_points.specs.Order.{points_of};
ghost use Rattle.rule_model.specs.Views.{rule_of};
ghost use Rattle.dissect_check.specs.Parts.{AreTables};

use edge_tables::kind_rows::KindRows;
use edge_tables::tables::Tables;
use rule_model::rule::Rule;
use std::alloc::Global;
use tile_shape::no_memory::NoMemory;

/// The mate of each type.
fn mates_of_types(alloc: Global, rule: &Rule) -> Result<Vec<u8>, NoMemory>
    ensures { IfOk result (λ mates. mates.items
        ≡ map (λ (t : EdgeType). t.mate) (rule_of rule.now).types) }
{
    let mut mates = Vec::with_capacity(alloc, rule.types.len())?;
    for row in &rule.types {
        mates.push(row.mate)?;
    }
    Ok(mates)
}

/// The subdivision of each type.
fn parts_of_types(alloc: Global, rule: &Rule) -> Result<Vec<Vec<u8>>, NoMemory>
    ensures { IfOk result (λ subdivisions. map (λ parts. parts.items) subdivisions.items
        ≡ map (λ (t : EdgeType). t.parts) (rule_of rule.now).types) }
{
    let mut subdivisions = Vec::with_capacity(alloc, rule.types.len())?;
    for row in &rule.types {
        let mut parts = Vec::new(alloc);
        parts.extend_from_slice(&row.parts)?;
        subdivisions.push(parts)?;
    }
    Ok(subdivisions)
}

/// The contact tables of a rule, from those of its kinds.
pub(crate) fn tables_of(alloc: Global, rule: &Rule, rows: Vec<KindRows>) -> Result<Tables, NoMemory>
    requires coherent { IsCoherent (tables_of (points_of rule.now.order) (rule_of rule.now)) }
    requires kinds { AreTables rule.now rows.items }
    ensures { IfOk result (λ tables. tables
        ≡ tables_of (points_of rule.now.order) (rule_of rule.now)) }
{
    let mates = mates_of_types(alloc, rule)?;
    let subdivisions = parts_of_types(alloc, rule)?;
    Ok(Tables::new(mates, subdivisions, rows))
}
