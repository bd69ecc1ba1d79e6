//! Rules as plain numbers.
ghost use Rattle.std.specs.Prelude.{◌≡◌, ◌≤◌, length, map};
ghost use Rattle.rule_model.specs.Tiling.{listed};
ghost use Rattle.rule_model.specs.Usable.{IsUsable};
ghost use Rattle.rule_model.specs.Views.{as_kind, as_type, as_rule};
ghost use Rattle.c_values.specs.Rules.{file_format, kind_as, no_kind, no_type, padded, rule_as, type_as};

use crate::numbers::put_numbers;
use crate::plain_edge_type::PlainEdgeType;
use crate::plain_kind::PlainKind;
use crate::plain_point::PlainPoint;
use rule_model::checked::Checked;
use rule_model::edition::Edition;
use rule_model::rule::Rule;

/// All the numbers of a rule.
///
/// - `factor`: the inflation factor.
/// - `kinds`, `types`, `glue`: the kinds, the edge types, and the types along which halves are glued. There
///   are `kind_count`, `type_count` and `glue_count` of them. All numbers after them are 0.
/// - `format`: that of its rule file, 1 or 2.
/// - `order`: the order n.
#[repr(C)]
#[derive(Clone, Copy)]
pub struct PlainRuleNumbers {
    pub factor: PlainPoint,
    pub kinds: [PlainKind; 16],
    pub types: [PlainEdgeType; 32],
    pub glue: [u8; 16],
    pub format: u8,
    pub order: u8,
    pub kind_count: u8,
    pub type_count: u8,
    pub glue_count: u8,
}

/// Returns the format of the rule files of an edition.
fn file_format(edition: Edition) -> u8
    ensures { result ≡ file_format edition }
{
    match edition {
        Edition::One => 1,
        Edition::Two => 2,
    }
}

/// Puts the kinds of a rule into an array, and blank ones after them.
fn put_kinds(rule: &Rule, kinds: &mut [PlainKind])
    requires usable { IsUsable rule.now }
    requires room { 16 ≤ length kinds.old }
    ensures { kinds.new ≡ padded (length kinds.old) no_kind (map kind_as (as_rule rule.now).kinds) }
{
    kinds.fill(PlainKind::blank());
    for i in 0..rule.kinds.len() {
        kinds[i] = PlainKind::of(&rule.kinds[i]);
    }
}

/// Puts the edge types of a rule into an array, and blank ones after them.
fn put_types(rule: &Rule, types: &mut [PlainEdgeType])
    requires usable { IsUsable rule.now }
    requires room { 32 ≤ length types.old }
    ensures { types.new ≡ padded (length types.old) no_type (map type_as (as_rule rule.now).types) }
{
    types.fill(PlainEdgeType::blank());
    for i in 0..rule.types.len() {
        types[i] = PlainEdgeType::of(&rule.types[i]);
    }
}

impl PlainRuleNumbers {
    /// Replaces these numbers by those of a rule.
    pub fn write(&mut self, checked: &Checked)
        ensures { self.new ≡ rule_as (listed checked.now) }
    {
        let rule = checked.rule();
        self.factor = PlainPoint { c: rule.factor.c };
        put_kinds(rule, &mut self.kinds);
        put_types(rule, &mut self.types);
        put_numbers(&rule.glue, &mut self.glue);
        self.format = file_format(rule.edition);
        self.order = rule.order.n();
        self.kind_count = rule.kinds.len() as u8;
        self.type_count = rule.types.len() as u8;
        self.glue_count = rule.glue.len() as u8;
    }
}
