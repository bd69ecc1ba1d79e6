//! The lengths of edges: those of one type, or of mates, are equally long.

ghost use Rattle.std.specs.Prelude.{◌≡◌, ◌<◌, ◌^◌, length, IfSome};
ghost use Rattle.std.specs.Option.{option_map};
ghost use Rattle.theory_substitution.specs.RuleParts.{edge_count};
ghost use Rattle.theory_edge_to_edge.specs.EdgeTypes.{edge_vector, first_vector, has_length_of_type};
ghost use Rattle.cyclo_points.specs.Order.{points_of};
ghost use Rattle.cyclo_points.specs.Point.{point_in, IsWithin};
ghost use Rattle.rule_model.specs.Usable.{IsUsable};
ghost use Rattle.rule_model.specs.Views.{as_rule, rule_of};
ghost use Rattle.dissect_check.specs.Agrees.{fault_in};
ghost use Rattle.dissect_check.specs.FirstFault.{lengths as lengths_fault};
ghost use Rattle.dissect_check.specs.Places.{IsTypeOf, IsEdgeOf};

use crate::check_fault::CheckFault;
use crate::wholes::next;
use cyclo_points::arithmetic::sub;
use cyclo_points::point::Point;
use plane_geom::segments::same_length;
use rule_model::rule::Rule;

/// The difference of the ends of an edge.
fn edge_vector(rule: &Rule, kind: usize, edge: usize) -> Point
    requires usable { IsUsable rule.now }
    requires edge_in { IsEdgeOf rule.now kind edge }
    ensures value { point_in rule.now.order result
        ≡ edge_vector (points_of rule.now.order) (rule_of rule.now) kind edge }
    ensures within { IsWithin (2 ^ 8) result }
{
    let end = rule.corner(kind, next(rule, kind, edge));
    let start = rule.corner(kind, edge);
    sub(&end, &start)
}

/// The vector of the first edge, in order of kind and edge, that has the type or its mate.
fn first_vector(rule: &Rule, ty: usize) -> Option<Point>
    requires usable { IsUsable rule.now }
    requires ty_in { IsTypeOf rule.now ty }
    ensures value { option_map (point_in rule.now.order) result
        ≡ first_vector (points_of rule.now.order) (rule_of rule.now) ty }
    ensures within { IfSome result (λ p. IsWithin (2 ^ 8) p) }
{
    let mate = rule.mate(ty);
    for kind in 0..rule.kind_count() {
        for edge in 0..rule.edge_count(kind) {
            let found = rule.edge_type(kind, edge);
            if found == ty || found == mate {
                return Some(edge_vector(rule, kind, edge));
            }
        }
    }
    None
}

/// Returns true if the edge is as long as the first edge of its type or its mate.
fn has_length_of_type(rule: &Rule, kind: usize, edge: usize) -> bool
    requires usable { IsUsable rule.now }
    requires edge_in { IsEdgeOf rule.now kind edge }
    ensures { result ≡ has_length_of_type (points_of rule.now.order) (rule_of rule.now) kind edge }
{
    let vector = edge_vector(rule, kind, edge);
    match first_vector(rule, rule.edge_type(kind, edge)) {
        Some(first) => same_length(rule.order, &vector, &first),
        None => true,
    }
}

/// Each edge is as long as the first edge of its type or its mate.
pub(crate) fn lengths(rule: &Rule) -> Result<(), CheckFault>
    requires usable { IsUsable rule.now }
    ensures { fault_in result ≡ lengths_fault rule.now.order (as_rule rule.now) }
{
    for kind in 0..rule.kind_count() {
        for edge in 0..rule.edge_count(kind) {
            if !has_length_of_type(rule, kind, edge) {
                return Err(CheckFault::BadLength {
                    kind: kind as u8,
                    edge: edge as u8,
                });
            }
        }
    }
    Ok(())
}
