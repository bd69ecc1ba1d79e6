//! Where the edges of children lie: against each other, or along the edges of the inflated
//! prototile.

ghost use Rattle.std.specs.Prelude.{◌≡◌, ◌≤◌, length, map, IfOk, All};
ghost use Rattle.std.specs.List.{filter};
ghost use Rattle.theory_edge_to_edge.specs.Edges.{is_opposite, runs_back, lies_along};
ghost use Rattle.theory_edge_to_edge.specs.Lying.{numbers_along, lie_among};
ghost use Rattle.cyclo_points.specs.declared.order.Order.{Order};
ghost use Rattle.cyclo_points.specs.Order.{points_of};
ghost use Rattle.rule_model.specs.declared.rule.Rule.{Rule};
ghost use Rattle.rule_model.specs.Usable.{IsUsable};
ghost use Rattle.rule_model.specs.Views.{rule_of};
ghost use Rattle.dissect_check.specs.Few.{few_of};
ghost use Rattle.dissect_check.specs.Views.{line_in, edge_in, as_lie, AreEdges, IsSmallLine, IsFit};

use crate::few::Few;
use crate::lie::Lie;
use crate::line::Line;
use crate::placed_edge::PlacedEdge;
use crate::same_point::same_point;
use cyclo_points::order::Order;
use plane_geom::segments::along;
use rule_model::rule::Rule;
use std::alloc::Global;
use tile_shape::no_memory::NoMemory;

/// Returns true if f runs from the end of e to its start.
fn runs_back(e: &Line, f: &Line) -> bool
    ensures { (o : Order) → IsSmallLine o e.now → IsSmallLine o f.now
        → result ≡ runs_back (points_of o) (line_in o e.now) (line_in o f.now) }
{
    same_point(&f.from, &e.to) && same_point(&f.to, &e.from)
}

/// Returns true if t is another child edge than s, and runs from its end to its start.
fn is_opposite(s: &PlacedEdge, t: &PlacedEdge) -> bool
    ensures { (o : Order) → IsSmallLine o s.now.line → IsSmallLine o t.now.line
        → result ≡ is_opposite (points_of o) (edge_in o s.now) (edge_in o t.now) }
{
    !(s.child == t.child && s.edge == t.edge) && runs_back(&s.line, &t.line)
}

/// The other child edges that run back along s.
fn edges_back(edges: &[PlacedEdge], s: &PlacedEdge) -> Few<PlacedEdge>
    ensures { (r : Rule) → All (IsFit r) edges.now → IsFit r s.now → result ≡ few_of (filter
        (λ t. is_opposite (points_of r.order) (edge_in r.order s.now) (edge_in r.order t)) edges.now) }
{
    let mut found = Few::None;
    for t in edges {
        if is_opposite(s, t) {
            found = found.more(*t);
        }
    }
    found
}

/// Returns true if an edge lies along a whole, an edge of the inflated prototile.
fn lies_along(order: Order, whole: &Line, edge: &Line) -> bool
    requires whole_small { IsSmallLine order whole.now }
    requires edge_small { IsSmallLine order edge.now }
    ensures { result
        ≡ lies_along (points_of order) (line_in order whole.now) (line_in order edge.now) }
{
    along(order, &whole.from, &whole.to, &edge.from, &edge.to)
}

/// The numbers of the wholes along which an edge lies.
fn wholes_along(order: Order, wholes: &[Line], edge: &Line) -> Few<u8>
    requires at_most_12 { length wholes.now ≤ 12 }
    requires wholes_small { All (IsSmallLine order) wholes.now }
    requires edge_small { IsSmallLine order edge.now }
    ensures { result ≡ few_of (numbers_along (points_of order) 0
        (map (line_in order) wholes.now) (line_in order edge.now)) }
{
    let mut found = Few::None;
    for number in 0..wholes.len() {
        if lies_along(order, &wholes[number], edge) {
            found = found.more(number as u8);
        }
    }
    found
}

/// Where a child edge lies, among the edges of all children and the wholes.
fn lie_among(rule: &Rule, edges: &[PlacedEdge], wholes: &[Line], s: &PlacedEdge) -> Lie
    requires usable { IsUsable rule.now }
    requires edges { AreEdges rule.now edges.now wholes.now }
    requires s_fit { IsFit rule.now s.now }
    ensures { as_lie result ≡ lie_among (points_of rule.now.order) (rule_of rule.now)
        (map (edge_in rule.now.order) edges.now) (map (line_in rule.now.order) wholes.now)
        (edge_in rule.now.order s.now) }
{
    match edges_back(edges, s) {
        Few::One(t) => {
            if rule.mate(usize::from(s.ty)) == usize::from(t.ty) {
                Lie::Inner {
                    child: t.child,
                    edge: t.edge,
                }
            } else {
                Lie::Loose
            }
        }
        Few::Many => Lie::Loose,
        Few::None => match wholes_along(rule.order, wholes, &s.line) {
            Few::One(edge) => Lie::Boundary { edge },
            _ => Lie::Loose,
        },
    }
}

/// Where each of the edges of all children lies.
pub(crate) fn all_lies(
    alloc: Global,
    rule: &Rule,
    edges: &[PlacedEdge],
    wholes: &[Line],
) -> Result<Vec<Lie>, NoMemory>
    requires usable { IsUsable rule.now }
    requires edges { AreEdges rule.now edges.now wholes.now }
    ensures { IfOk result (λ v. let placed = map (edge_in rule.now.order) edges.now in
        map as_lie v.items ≡ map (lie_among (points_of rule.now.order) (rule_of rule.now) placed
        (map (line_in rule.now.order) wholes.now)) placed) }
{
    let mut lies = Vec::with_capacity(alloc, edges.len())?;
    for s in edges {
        lies.push(lie_among(rule, edges, wholes, s))?;
    }
    Ok(lies)
}
