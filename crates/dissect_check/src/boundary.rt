//! The boundary of an inflated prototile: child edges that are the parts of one of its edges.
ghost use Rattle.std.specs.Prelude.{◌≡◌, ◌≤◌, ◌<◌, ℕ, map, length, IfOk};
ghost use Rattle.std.specs.List.{All, filter};
ghost use Rattle.theory_substitution.specs.RuleParts.{edge_count, parts};
ghost use Rattle.theory_edge_to_edge.specs.Edges.{child_edges, inflated_edges};
ghost use Rattle.theory_edge_to_edge.specs.Lying.{is_along};
ghost use Rattle.theory_edge_to_edge.specs.Boundary.{boundary_among, parts_along, parts_of_edge as the_parts};
ghost use Rattle.theory_edge_to_edge.specs.Contacts.{named_parts};
ghost use Rattle.cyclo_points.specs.Order.{points_of};
ghost use Rattle.cyclo_points.specs.Point.{point_in, IsOf};
ghost use Rattle.edge_tables.specs.Views.{as_child_edge};
ghost use Rattle.rule_model.specs.declared.rule.Rule.{Rule as ProgramRule};
ghost use Rattle.rule_model.specs.Usable.{IsUsable};
ghost use Rattle.rule_model.specs.Views.{rule_of};
ghost use Rattle.dissect_check.specs.Agrees.{Agrees};
ghost use Rattle.dissect_check.specs.FirstFault.{part_fault};
ghost use Rattle.dissect_check.specs.Views.{line_in, edge_in, as_lie, IsSmallLine, IsFit, IsInflated};
ghost use Rattle.dissect_check.specs.Few.{few_of};
ghost use Rattle.dissect_check.specs.Boundary.{names_of, as_parts};
ghost use Rattle.dissect_check.specs.Places.{IsTypeOf, IsEdgeOf};

use crate::check_fault::CheckFault;
use crate::few::Few;
use crate::inflated::Inflated;
use crate::lie::Lie;
use crate::line::Line;
use crate::placed_edge::PlacedEdge;
use crate::same_point::same_point;
use cyclo_points::point::Point;
use edge_tables::child_edge::ChildEdge;
use rule_model::rule::Rule;
use std::alloc::Global;
use tile_shape::no_memory::NoMemory;

/// Returns true if a child edge that lies so is on the boundary along this edge of the parent.
fn is_on_edge(lie: &Lie, edge: usize) -> bool
    ensures { result ≡ is_along edge (as_lie lie.now) }
{
    match lie {
        Lie::Boundary { edge: along } => usize::from(*along) == edge,
        _ => false,
    }
}

/// The boundary child edges along an edge of the inflated prototile.
fn edges_along(alloc: Global, inflated: &Inflated, edge: usize) -> Result<Vec<PlacedEdge>, NoMemory>
    ensures edges { (rule : ProgramRule) (kind : ℕ) → IsInflated rule kind inflated.now
        → IfOk result (λ found. map (edge_in rule.order) found.items
        ≡ boundary_among (points_of rule.order) (rule_of rule)
        (child_edges (points_of rule.order) (rule_of rule) kind)
        (inflated_edges (points_of rule.order) (rule_of rule) kind) edge) }
    ensures fit { (rule : ProgramRule) (kind : ℕ) → IsInflated rule kind inflated.now
        → IfOk result (λ found. All (IsFit rule) found.items) }
{
    let mut found = Vec::new(alloc);
    for (child_edge, lie) in inflated.edges.iter().zip(&inflated.lies) {
        if is_on_edge(lie, edge) {
            found.push(*child_edge)?;
        }
    }
    Ok(found)
}

/// Those of these edges that begin at a point.
fn edges_from(edges: &[PlacedEdge], p: &Point) -> Few<PlacedEdge>
    ensures { (rule : ProgramRule) → All (IsFit rule) edges.now → IsOf rule.order p.now
        → result ≡ few_of (filter (λ s. (points_of rule.order).same
        (point_in rule.order s.line.from) (point_in rule.order p.now)) edges.now) }
{
    let mut found = Few::None;
    for edge in edges {
        if same_point(&edge.line.from, p) {
            found = found.more(*edge);
        }
    }
    found
}

/// The names of the edges that are the parts, in order, of an inflated edge of the type; or the
/// number of the first part that fails.
fn parts_among(
    alloc: Global,
    rule: &Rule,
    edges: &[PlacedEdge],
    whole: &Line,
    ty: usize,
) -> Result<Result<Vec<ChildEdge>, u8>, NoMemory>
    requires usable { IsUsable rule.now }
    requires edges_fit { All (IsFit rule.now) edges.now }
    requires whole_small { IsSmallLine rule.now.order whole.now }
    requires type_exists { IsTypeOf rule.now ty }
    ensures parts { IfOk result (λ found. as_parts found
        ≡ names_of (parts_along (points_of rule.now.order) (map (edge_in rule.now.order) edges.now)
        (line_in rule.now.order whole.now) (parts (rule_of rule.now) ty))) }
    ensures few { IfOk result (λ found. IfOk found (λ names. length names.items ≤ 8)) }
{
    let mut names = Vec::with_capacity(alloc, rule.part_count(ty))?;
    let mut from = whole.from;
    for part in 0..rule.part_count(ty) {
        let Few::One(next) = edges_from(edges, &from) else {
            return Ok(Err(part as u8));
        };
        if usize::from(next.ty) != rule.part(ty, part) {
            return Ok(Err(part as u8));
        }
        names.push(next.name())?;
        from = next.line.to;
    }
    if same_point(&from, &whole.to) && edges.len() == names.len() {
        Ok(Ok(names))
    } else {
        Ok(Err(rule.part_count(ty) as u8))
    }
}

/// The names of the child edges that are the parts, in order, of an edge of the inflated prototile;
/// or the fault of the first part that fails.
pub(crate) fn parts_of_edge(
    alloc: Global,
    rule: &Rule,
    inflated: &Inflated,
    kind: usize,
    edge: usize,
) -> Result<Vec<ChildEdge>, CheckFault>
    requires usable { IsUsable rule.now }
    requires edge_exists { IsEdgeOf rule.now kind edge }
    requires inflated { IsInflated rule.now kind inflated.now }
    ensures fault { Agrees result (part_fault kind edge
        (the_parts (points_of rule.now.order) (rule_of rule.now) kind edge)) }
    ensures parts { IfOk result (λ names. map as_child_edge names.items
        ≡ named_parts (points_of rule.now.order) (rule_of rule.now) kind edge) }
    ensures few { IfOk result (λ names. length names.items ≤ 8) }
{
    let along = edges_along(alloc, inflated, edge)?;
    let ty = rule.edge_type(kind, edge);
    match parts_among(alloc, rule, &along, &inflated.wholes[edge], ty)? {
        Ok(names) => Ok(names),
        Err(part) => Err(CheckFault::BoundaryWrong {
            kind: kind as u8,
            edge: edge as u8,
            part,
        }),
    }
}
