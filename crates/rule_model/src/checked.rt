//! Accepted rules.
ghost use Rattle.std.specs.Prelude.{◌≡◌, ◌↔◌, ℕ, ◌<◌, length, map, All, None, IfSome};
ghost use Rattle.theory_substitution.specs.Rule.{children_of};
ghost use Rattle.theory_substitution.specs.RuleParts.{vertices_of, edge_count};
ghost use Rattle.theory_addresses.specs.Tables.{child_kinds};
ghost use Rattle.cyclo_points.specs.Order.{points_of};
ghost use Rattle.cyclo_points.specs.Point.{point_in};
ghost use Rattle.rule_model.specs.Accepted.{IsAccepted};
ghost use Rattle.rule_model.specs.Glue.{IsGlueEdge, IsOnlyGlueEdge};
ghost use Rattle.rule_model.specs.Tiling.{tiling_of, contacts, children, its_child};
ghost use Rattle.rule_model.specs.Usable.{IsSmall, IsUsable};
ghost use Rattle.rule_model.specs.Views.{as_rule, rule_of, child_in};

use crate::child::Child;
use crate::edition::Edition;
use crate::rule::Rule;
use cyclo_points::order::Order;
use cyclo_points::point::Point;
use edge_tables::tables::Tables;
use std::marker::Model;
use tile_shape::uses::Uses;

/// An accepted rule, with its contact tables and its uses. Contracts see it as the rule, which determines
/// both.
#[derive(Drop)]
pub struct Checked {
    rule: Rule,
    tables: Tables,
    uses: Uses,
}

impl Model for Checked {
    ghost use Rattle.rule_model.specs.declared.rule.Rule.{Rule};
    ghost use Rattle.rule_model.specs.Checked.{IsChecked};

    ghost Value = { Rule };

    ghost view = { λ c. c.rule };

    ghost invariant = { λ c. IsChecked c.rule c.tables c.uses };
}

impl Checked {
    /// Makes the value from an accepted rule, the contact tables that its geometry gives, and its uses.
    pub fn admit(rule: Rule, tables: Tables, uses: Uses) -> Checked
        requires accepted { IsAccepted rule }
        requires its_tables { tables ≡ contacts (tiling_of rule) }
        requires its_uses { uses ≡ children (tiling_of rule) }
        ensures { result ≡ rule }
    {
        Checked { rule, tables, uses }
    }

    /// Returns the rule. All ten clauses hold, so its numbers may be read.
    pub fn rule(&self) -> &Rule
        ensures rule { result.now ≡ self.now }
        ensures accepted { IsAccepted self.now }
        ensures usable { IsUsable self.now }
        ensures order_of_edition { self.now.edition ≡ Edition.One → ¬ self.now.order ≡ Order.Six }
    {
        &self.rule
    }

    /// Returns the order: ζ turns by one n-th of a full turn.
    pub fn order(&self) -> Order
        ensures order { result ≡ self.now.order }
        ensures accepted { IsAccepted self.now }
    {
        self.rule.order
    }

    /// Returns the inflation factor, with coefficients of at most 64 in absolute value.
    pub fn factor(&self) -> Point
        ensures factor { result ≡ self.now.factor }
        ensures small { IsSmall self.now.order result }
    {
        self.rule().factor
    }

    /// Returns the contact tables. Their child kinds are those of the uses.
    pub fn tables(&self) -> &Tables
        ensures contacts { result.now ≡ contacts (tiling_of self.now) }
        ensures same_uses { child_kinds (contacts (tiling_of self.now)) ≡ children (tiling_of self.now) }
    {
        &self.tables
    }

    /// Returns the uses: which child of which parent each kind may be.
    pub fn uses(&self) -> &Uses
        ensures { result.now ≡ children (tiling_of self.now) }
    {
        &self.uses
    }

    /// Returns the vertices of a kind's prototile, counterclockwise. There are as many as edges.
    pub fn vertices(&self, kind: u8) -> &[Point]
        requires exists { kind < length (rule_of self.now).kinds }
        ensures lists { result.now ≡ vertices_of (as_rule self.now) kind }
        ensures numbers { map (point_in self.now.order) result.now ≡ vertices_of (rule_of self.now) kind }
        ensures each_edge { length result.now ≡ edge_count (rule_of self.now) kind }
        ensures small { All (IsSmall self.now.order) result.now }
    {
        self.rule().vertices(usize::from(kind))
    }

    /// Returns a child of a kind. Its turn is below the order, and its kind exists.
    pub fn child(&self, kind: u8, child: u8) -> Child
        requires exists { kind < length (rule_of self.now).kinds }
        requires child_exists { child < length (children_of (rule_of self.now) kind) }
        ensures number { child_in self.now.order result ≡ its_child (tiling_of self.now) kind child }
        ensures small { IsSmall self.now.order result.shift }
        ensures turn_below { result.turn < (points_of self.now.order).order }
        ensures kind_exists { result.kind < length (rule_of self.now).kinds }
    {
        self.rule().tile(usize::from(kind), usize::from(child))
    }

    /// Returns the number of the edge along which a kind is glued to another, or None if it has no such edge.
    /// It is the kind's only edge with a glue type or the mate of one.
    pub fn glue_edge(&self, kind: u8) -> Option<u8>
        requires exists { kind < length (rule_of self.now).kinds }
        ensures none { (result ≡ None) ↔ ((e : ℕ) → ¬ IsGlueEdge (rule_of self.now) kind e) }
        ensures only { IfSome result (λ e. IsOnlyGlueEdge (rule_of self.now) kind e) }
    {
        self.rule().first_glue_edge(usize::from(kind))
    }
}
