//! The edges of the children of a kind, where they lie in the inflated prototile.

ghost use Rattle.std.specs.Prelude.{◌≡◌, ◌^◌, ◌<◌, ◌++◌, length, map, IfOk, OnOk, All};
ghost use Rattle.theory_substitution.specs.Motion.{moved};
ghost use Rattle.theory_substitution.specs.Rule.{children_of};
ghost use Rattle.theory_substitution.specs.RuleParts.{edge_count, vertex, child_of};
ghost use Rattle.theory_edge_to_edge.specs.Edges.{child_edge, edges_of_child, child_edges};
ghost use Rattle.cyclo_points.specs.Order.{points_of};
ghost use Rattle.cyclo_points.specs.Point.{point_in, IsOf, IsWithin};
ghost use Rattle.rule_model.specs.Usable.{IsUsable};
ghost use Rattle.rule_model.specs.Views.{rule_of};
ghost use Rattle.dissect_check.specs.Views.{edge_in, IsFit};
ghost use Rattle.dissect_check.specs.Places.{IsKindOf, IsChildOf};

use crate::line::Line;
use crate::placed_edge::PlacedEdge;
use crate::wholes::next;
use cyclo_points::motion::Motion;
use cyclo_points::movement::apply;
use cyclo_points::point::Point;
use rule_model::rule::Rule;
use std::alloc::Global;
use tile_shape::no_memory::NoMemory;

/// A vertex of a child.
fn child_vertex(rule: &Rule, kind: usize, child: usize, i: usize) -> Point
    requires usable { IsUsable rule.now }
    requires child_in { IsChildOf rule.now kind child }
    requires i_in { i < edge_count (rule_of rule.now)
        (child_of (points_of rule.now.order) (rule_of rule.now) kind child).kind }
    ensures value { let tile = child_of (points_of rule.now.order) (rule_of rule.now) kind child in
        point_in rule.now.order result ≡ moved (points_of rule.now.order) tile.motion
        (vertex (points_of rule.now.order) (rule_of rule.now) tile.kind i) }
    ensures within { IsWithin (2 ^ 16) result }
    ensures in_order { IsOf rule.now.order result }
{
    let tile = rule.tile(kind, child);
    let motion = Motion {
        turn: tile.turn,
        shift: tile.shift,
    };
    apply(rule.order, &motion, &rule.corner(usize::from(tile.kind), i))
}

/// An edge of a child.
fn child_edge(rule: &Rule, kind: usize, child: usize, edge: usize) -> PlacedEdge
    requires usable { IsUsable rule.now }
    requires child_in { IsChildOf rule.now kind child }
    requires edge_in { edge < edge_count (rule_of rule.now)
        (child_of (points_of rule.now.order) (rule_of rule.now) kind child).kind }
    ensures value { edge_in rule.now.order result
        ≡ child_edge (points_of rule.now.order) (rule_of rule.now) kind child edge }
    ensures fit { IsFit rule.now result }
{
    let its_kind = usize::from(rule.tile(kind, child).kind);
    PlacedEdge {
        child: child as u8,
        edge: edge as u8,
        ty: rule.edge_type(its_kind, edge) as u8,
        line: Line {
            from: child_vertex(rule, kind, child, edge),
            to: child_vertex(rule, kind, child, next(rule, its_kind, edge)),
        },
    }
}

/// Adds the edges of a child.
fn add_child(
    rule: &Rule,
    kind: usize,
    child: usize,
    edges: &mut Vec<PlacedEdge>,
) -> Result<(), NoMemory>
    requires usable { IsUsable rule.now }
    requires child_in { IsChildOf rule.now kind child }
    requires all_fit { All (IsFit rule.now) edges.old.items }
    ensures value { OnOk result (map (edge_in rule.now.order) edges.new.items
        ≡ map (edge_in rule.now.order) edges.old.items
        ++ edges_of_child (points_of rule.now.order) (rule_of rule.now) kind child) }
    ensures fit { OnOk result (All (IsFit rule.now) edges.new.items) }
{
    for edge in 0..rule.edge_count(usize::from(rule.tile(kind, child).kind)) {
        edges.push(child_edge(rule, kind, child, edge))?;
    }
    Ok(())
}

/// The edges of all children of a kind, in order of child and edge.
pub(crate) fn child_edges(
    alloc: Global,
    rule: &Rule,
    kind: usize,
) -> Result<Vec<PlacedEdge>, NoMemory>
    requires usable { IsUsable rule.now }
    requires kind_in { IsKindOf rule.now kind }
    ensures value { IfOk result (λ v. map (edge_in rule.now.order) v.items
        ≡ child_edges (points_of rule.now.order) (rule_of rule.now) kind) }
    ensures fit { IfOk result (λ v. All (IsFit rule.now) v.items) }
{
    // Most prototiles have three or four edges.
    let mut edges = Vec::with_capacity(alloc, 4 * rule.child_count(kind))?;
    for child in 0..rule.child_count(kind) {
        add_child(rule, kind, child, &mut edges)?;
    }
    Ok(edges)
}
