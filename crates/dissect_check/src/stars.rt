//! Prototiles that are star-shaped from vertex 0: the triangles of their fans lie side by side.
ghost use Rattle.std.specs.Prelude.{◌≡◌, ◌+◌, ◌^◌, ◌<◌, ◌≤◌, All, length};
ghost use Rattle.theory_plane.specs.Triangle.{turns_left};
ghost use Rattle.theory_substitution.specs.RuleParts.{vertices_of};
ghost use Rattle.theory_edge_to_edge.specs.Star.{corner, fan_triangle, fan_turns_left, fan_is_apart, fan_is_open, is_star};
ghost use Rattle.cyclo_points.specs.Order.{points_of};
ghost use Rattle.plane_geom.specs.Spots.{reals_of, spot_of, triangle_of};
ghost use Rattle.cyclo_points.specs.Point.{IsWithin};
ghost use Rattle.rule_model.specs.Usable.{IsUsable};
ghost use Rattle.rule_model.specs.Views.{as_rule, rule_of};
ghost use Rattle.dissect_check.specs.Agrees.{fault_in};
ghost use Rattle.dissect_check.specs.FirstFault.{stars as stars_fault};
ghost use Rattle.dissect_check.specs.Places.{IsKindOf};

use crate::check_fault::CheckFault;
use cyclo_points::order::Order;
use cyclo_points::point::Point;
use plane_geom::segments::on_segment;
use plane_geom::sides::side;
use plane_geom::triangles::separated;
use rule_model::rule::Rule;
use std::cmp::Ordering;

/// How many vertices the prototile has: 3 or more.
fn corner_count(rule: &Rule, kind: usize) -> usize
    requires usable { IsUsable rule.now }
    requires kind_in { IsKindOf rule.now kind }
    ensures value { result ≡ length (vertices_of (rule_of rule.now) kind) }
    ensures at_least_3 { 3 ≤ result }
{
    rule.vertex_count(kind)
}

/// A vertex of the prototile, where the tests of the plane can take it.
fn corner(rule: &Rule, kind: usize, i: usize) -> Point
    requires usable { IsUsable rule.now }
    requires kind_in { IsKindOf rule.now kind }
    requires i_in { i < length (vertices_of (rule_of rule.now) kind) }
    ensures place { spot_of rule.now.order result
        ≡ corner (points_of rule.now.order) (vertices_of (rule_of rule.now) kind) i }
    ensures within { IsWithin (2 ^ 25) result }
{
    rule.corner(kind, i)
}

/// Returns triangle number i of the fan around vertex 0.
fn fan_triangle(rule: &Rule, kind: usize, i: usize) -> [Point; 3]
    requires usable { IsUsable rule.now }
    requires kind_in { IsKindOf rule.now kind }
    requires i_in { i + 2 < length (vertices_of (rule_of rule.now) kind) }
    ensures places { triangle_of rule.now.order result
        ≡ fan_triangle (points_of rule.now.order) (vertices_of (rule_of rule.now) kind) i }
    ensures within { All (IsWithin (2 ^ 25)) result }
{
    [
        corner(rule, kind, 0),
        corner(rule, kind, i + 1),
        corner(rule, kind, i + 2),
    ]
}

/// Returns true if the triangle turns strictly left.
fn turns_left(order: Order, t: &[Point; 3]) -> bool
    requires { All (IsWithin (2 ^ 25)) t.now }
    ensures { result ≡ turns_left (reals_of order) (triangle_of order t.now) }
{
    side(order, &t[0], &t[1], &t[2]) == Ordering::Greater
}

/// Returns true if each triangle of the fan turns strictly left.
fn fan_turns_left(rule: &Rule, kind: usize) -> bool
    requires usable { IsUsable rule.now }
    requires kind_in { IsKindOf rule.now kind }
    ensures { result
        ≡ fan_turns_left (points_of rule.now.order) (vertices_of (rule_of rule.now) kind) }
{
    for i in 0..corner_count(rule, kind) - 2 {
        if !turns_left(rule.order, &fan_triangle(rule, kind, i)) {
            return false;
        }
    }
    true
}

/// Returns true if a line along an edge of one of them separates each two triangles of the fan.
fn fan_is_apart(rule: &Rule, kind: usize) -> bool
    requires usable { IsUsable rule.now }
    requires kind_in { IsKindOf rule.now kind }
    ensures { result
        ≡ fan_is_apart (points_of rule.now.order) (vertices_of (rule_of rule.now) kind) }
{
    for j in 0..corner_count(rule, kind) - 2 {
        let later = fan_triangle(rule, kind, j);
        for i in 0..j {
            if !separated(rule.order, &fan_triangle(rule, kind, i), &later) {
                return false;
            }
        }
    }
    true
}

/// Returns true if the first and the last edge leave vertex 0 in two directions.
fn fan_is_open(rule: &Rule, kind: usize) -> bool
    requires usable { IsUsable rule.now }
    requires kind_in { IsKindOf rule.now kind }
    ensures { result
        ≡ fan_is_open (points_of rule.now.order) (vertices_of (rule_of rule.now) kind) }
{
    let first = corner(rule, kind, 0);
    let second = corner(rule, kind, 1);
    let last = corner(rule, kind, corner_count(rule, kind) - 1);
    !on_segment(rule.order, &first, &last, &second)
        && !on_segment(rule.order, &first, &second, &last)
}

/// Returns true if the prototile is star-shaped from vertex 0.
fn is_star(rule: &Rule, kind: usize) -> bool
    requires usable { IsUsable rule.now }
    requires kind_in { IsKindOf rule.now kind }
    ensures { result ≡ is_star (points_of rule.now.order) (vertices_of (rule_of rule.now) kind) }
{
    fan_turns_left(rule, kind) && fan_is_apart(rule, kind) && fan_is_open(rule, kind)
}

/// Each prototile is star-shaped from its vertex 0.
pub(crate) fn stars(rule: &Rule) -> Result<(), CheckFault>
    requires usable { IsUsable rule.now }
    ensures { fault_in result ≡ stars_fault rule.now.order (as_rule rule.now) }
{
    for kind in 0..rule.kind_count() {
        if !is_star(rule, kind) {
            return Err(CheckFault::NotStar { kind: kind as u8 });
        }
    }
    Ok(())
}
