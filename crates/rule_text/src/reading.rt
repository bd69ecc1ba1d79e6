//! Reads a rule file.
ghost use Rattle.std.specs.Prelude.{◌≡◌, ◌≢◌, ◌+◌, ◌<◌, ◌≤◌, ◌^◌, ◌↔◌, length, map, IfOk, IfErr};
ghost use Rattle.toml.specs.View.{table_view};
ghost use Rattle.rule_model.specs.Views.{as_type, as_kind};
ghost use Rattle.rule_text.specs.Agrees.{ReadsAs};
ghost use Rattle.rule_text.specs.Document.{type_in, kind_in, types_in, kinds_in, rule_of_members};
ghost use Rattle.rule_text.specs.File.{document_in, rule_in_file};
ghost use Rattle.rule_text.specs.Limits.{longest_file};
ghost use Rattle.rule_model.specs.Tiling.{listed};
ghost use Rattle.rule_text.specs.Narrow.{AreNarrow};
ghost use Rattle.rule_text.specs.Steps.{in_order};

use crate::further::has_only;
use crate::key::Key;
use crate::keys;
use crate::place::Place;
use crate::text_fault::TextFault;
use cyclo_points::order::Order;
use rule_model::kind_row::KindRow;
use rule_model::rule::Rule;
use rule_model::type_row::TypeRow;
use std::alloc::Global;
use toml::Table;

/// The greatest length of a rule file, in bytes: a mebibyte.
pub const LONGEST_FILE: usize = 1_048_576;

/// Reads the entry of an edge type. `ty` is its number.
#[tactic(auto, unfolding(crate::specs::Document::type_in))]
fn type_row(alloc: Global, entry: &Table, ty: u32) -> Result<TypeRow, TextFault>
    ensures { ReadsAs as_type result (type_in ty (table_view entry.now)) }
{
    let mate = keys::type_number(entry, "mate", Key::Mate { ty })?;
    let parts = keys::type_numbers(alloc, entry, "parts", Key::Parts { ty })?;
    if !has_only(entry, &["mate", "parts"]) {
        let place = Place::InType { ty };
        return Err(TextFault::UnknownKey { place });
    }
    Ok(TypeRow { mate, parts })
}

/// Reads the entry of a kind. `kind` is its number.
#[tactic(auto, unfolding(crate::specs::Document::kind_in))]
fn kind_row(alloc: Global, entry: &Table, order: Order, kind: u32) -> Result<KindRow, TextFault>
    ensures { ReadsAs as_kind result (kind_in order kind (table_view entry.now)) }
{
    let vertices = keys::vertices(alloc, entry, order, Key::Vertices { kind })?;
    let edges = keys::type_numbers(alloc, entry, "edges", Key::Edges { kind })?;
    let children = keys::children(alloc, entry, order, Key::Children { kind })?;
    if !has_only(entry, &["vertices", "edges", "children"]) {
        let place = Place::InKind { kind };
        return Err(TextFault::UnknownKey { place });
    }
    Ok(KindRow {
        vertices,
        edges,
        children,
    })
}

/// Reads the entries of the edge types.
fn type_rows(alloc: Global, entries: &[&Table]) -> Result<Vec<TypeRow>, TextFault>
    requires numbered { length entries.now < 2 ^ 32 }
    ensures { ReadsAs (λ v. map as_type v.items) result
        (in_order (λ ty entry. type_in ty (table_view entry.now)) 0 entries.now) }
{
    let mut rows = Vec::with_capacity(alloc, entries.len())?;
    for (i, entry) in entries.iter().enumerate() {
        let row = type_row(alloc, entry, i as u32)?;
        rows.push(row)?;
    }
    Ok(rows)
}

/// Reads the entries of the kinds.
fn kind_rows(alloc: Global, entries: &[&Table], order: Order) -> Result<Vec<KindRow>, TextFault>
    requires numbered { length entries.now < 2 ^ 32 }
    ensures { ReadsAs (λ v. map as_kind v.items) result
        (in_order (λ kind entry. kind_in order kind (table_view entry.now)) 0 entries.now) }
{
    let mut rows = Vec::with_capacity(alloc, entries.len())?;
    for (i, entry) in entries.iter().enumerate() {
        let row = kind_row(alloc, entry, order, i as u32)?;
        rows.push(row)?;
    }
    Ok(rows)
}

/// Reads the edge types of a document.
#[tactic(auto, unfolding(crate::specs::Document::types_in))]
fn types(alloc: Global, table: &Table) -> Result<Vec<TypeRow>, TextFault>
    requires few { AreNarrow (longest_file + 2) (table_view table.now) }
    ensures { ReadsAs (λ v. map as_type v.items) result (types_in (table_view table.now)) }
{
    let entries = keys::entries(alloc, table, "type", Key::TypeList)?;
    type_rows(alloc, entries.as_slice())
}

/// Reads the kinds of a document.
#[tactic(auto, unfolding(crate::specs::Document::kinds_in))]
fn kinds(alloc: Global, table: &Table, order: Order) -> Result<Vec<KindRow>, TextFault>
    requires few { AreNarrow (longest_file + 2) (table_view table.now) }
    ensures { ReadsAs (λ v. map as_kind v.items) result (kinds_in order (table_view table.now)) }
{
    let entries = keys::entries(alloc, table, "kind", Key::KindList)?;
    kind_rows(alloc, entries.as_slice(), order)
}

/// Reads the rule of a document.
#[tactic(auto, unfolding(crate::specs::Document::rule_of_members))]
fn rule_of(alloc: Global, table: &Table) -> Result<Rule, TextFault>
    requires few { AreNarrow (longest_file + 2) (table_view table.now) }
    ensures { ReadsAs listed result (rule_of_members (table_view table.now)) }
{
    let edition = keys::format(table)?;
    let order = keys::order(table, edition)?;
    let factor = keys::lambda(alloc, table, order)?;
    let glue = keys::type_numbers(alloc, table, "glue", Key::Glue)?;
    let types = types(alloc, table)?;
    let kinds = kinds(alloc, table, order)?;
    if !has_only(
        table,
        &["format", "order", "lambda", "glue", "type", "kind"],
    ) {
        let place = Place::Top;
        return Err(TextFault::UnknownKey { place });
    }
    Ok(Rule {
        edition,
        order,
        factor,
        glue,
        types,
        kinds,
    })
}

/// Reads the rule that a file stands for. The file may have 1,048,576 bytes.
///
/// # Errors
///
/// The first fault is returned. Tests run in this order:
///
/// 1. `NotToml`: the bytes are not a TOML document.
/// 2. `format`, `order`, `lambda` and `glue`: `Missing`, `WrongType` or `OutOfRange`.
/// 3. `type`, and then each of its entries: the same three, and `UnknownKey` at the end of each entry.
/// 4. `kind`, and then each of its entries, in the same way.
/// 5. `UnknownKey`: the document has another key.
///
/// `NoMemory` means that memory ran out.
pub fn read_rule(alloc: Global, bytes: &[u8]) -> Result<Rule, TextFault>
    requires at_most_a_mebibyte { length bytes.now ≤ longest_file }

    // A rule that is read is the one that the bytes stand for.
    ensures read { IfOk result (λ rule. rule_in_file bytes.now ≡ Ok (listed rule)) }

    // A fault that is returned is the first one, unless memory ran out.
    ensures fault { IfErr result (λ e. e ≢ TextFault.NoMemory → rule_in_file bytes.now ≡ Err e) }

    // Unless memory runs out, `NotToml` comes exactly if the bytes are not a TOML document.
    ensures not_toml { result ≢ Err TextFault.NoMemory → (result ≡ Err TextFault.NotToml)
        ↔ (document_in bytes.now ≡ None) }
{
    match toml::table_from_slice(alloc, bytes) {
        Ok(table) => rule_of(alloc, &table),
        Err(error) if error.is_memory() => Err(TextFault::NoMemory),
        Err(_) => Err(TextFault::NotToml),
    }
}
