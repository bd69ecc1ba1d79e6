//! The edges of inflated prototiles.

ghost use Rattle.std.specs.Prelude.{◌≡◌, ◌^◌, ◌<◌, length, map, IfOk, All};
ghost use Rattle.theory_substitution.specs.RuleParts.{edge_count, next, vertex};
ghost use Rattle.theory_edge_to_edge.specs.Edges.{inflated_edge, inflated_edges};
ghost use Rattle.cyclo_points.specs.Order.{points_of};
ghost use Rattle.cyclo_points.specs.Point.{point_in, IsOf, IsWithin};
ghost use Rattle.rule_model.specs.Usable.{IsUsable};
ghost use Rattle.rule_model.specs.Views.{rule_of};
ghost use Rattle.dissect_check.specs.Views.{line_in, IsSmallLine};
ghost use Rattle.dissect_check.specs.Places.{IsKindOf, IsEdgeOf};

use crate::line::Line;
use cyclo_points::point::Point;
use cyclo_points::product::mul;
use rule_model::rule::Rule;
use std::alloc::Global;
use tile_shape::no_memory::NoMemory;

/// The number of the vertex at which an edge of a kind ends.
pub(crate) fn next(rule: &Rule, kind: usize, edge: usize) -> usize
    requires usable { IsUsable rule.now }
    requires edge_in { IsEdgeOf rule.now kind edge }
    ensures value { result ≡ next (rule_of rule.now) kind edge }
    ensures within { result < edge_count (rule_of rule.now) kind }
{
    if edge + 1 < rule.edge_count(kind) {
        edge + 1
    } else {
        0
    }
}

/// A vertex of the inflated prototile of a kind: λ times the vertex of the prototile.
fn inflated_vertex(rule: &Rule, kind: usize, i: usize) -> Point
    requires usable { IsUsable rule.now }
    requires kind_in { IsKindOf rule.now kind }
    requires i_in { i < edge_count (rule_of rule.now) kind }
    ensures value { point_in rule.now.order result ≡ (points_of rule.now.order).ring.mul
        (vertex (points_of rule.now.order) (rule_of rule.now) kind i) (rule_of rule.now).factor }
    ensures within { IsWithin (2 ^ 16) result }
    ensures in_order { IsOf rule.now.order result }
{
    mul(rule.order, &rule.corner(kind, i), &rule.factor)
}

/// An edge of the inflated prototile of a kind.
fn inflated_edge(rule: &Rule, kind: usize, edge: usize) -> Line
    requires usable { IsUsable rule.now }
    requires edge_in { IsEdgeOf rule.now kind edge }
    ensures value { line_in rule.now.order result
        ≡ inflated_edge (points_of rule.now.order) (rule_of rule.now) kind edge }
    ensures small { IsSmallLine rule.now.order result }
{
    Line {
        from: inflated_vertex(rule, kind, edge),
        to: inflated_vertex(rule, kind, next(rule, kind, edge)),
    }
}

/// The edges of the inflated prototile of a kind.
pub(crate) fn inflated_edges(alloc: Global, rule: &Rule, kind: usize) -> Result<Vec<Line>, NoMemory>
    requires usable { IsUsable rule.now }
    requires kind_in { IsKindOf rule.now kind }
    ensures value { IfOk result (λ v. map (line_in rule.now.order) v.items
        ≡ inflated_edges (points_of rule.now.order) (rule_of rule.now) kind) }
    ensures small { IfOk result (λ v. All (IsSmallLine rule.now.order) v.items) }
{
    let mut lines = Vec::with_capacity(alloc, rule.edge_count(kind))?;
    for edge in 0..rule.edge_count(kind) {
        lines.push(inflated_edge(rule, kind, edge))?;
    }
    Ok(lines)
}
