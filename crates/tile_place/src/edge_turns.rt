//! The turns of edges.
ghost use Rattle.std.specs.Prelude.{◌≡◌, ◌+◌, ◌*◌, ◌<◌, suc, length, get_or, cond, nat_lt, IfOk};
ghost use Rattle.theory_substitution.specs.RuleParts.{edge_count};
ghost use Rattle.theory_edge_to_edge.specs.EdgeTypes.{edge_vector};
ghost use Rattle.cyclo_points.specs.Order.{points_of, coefficients};
ghost use Rattle.rule_model.specs.Tiling.{tiling_of};
ghost use Rattle.rule_model.specs.Views.{rule_of};
ghost use Rattle.tile_place.specs.EdgeTurns.{IsEdgeOf, IsGreatest, AreGreatest};
ghost use Rattle.tile_place.specs.TurnedVertices.{turned_by, AreTurned};

use crate::compared::is_above;
use crate::prototile_edge::PrototileEdge;
use crate::turned_vertices::TurnedVertices;
use cyclo_points::arithmetic::sub;
use cyclo_points::point::Point;
use cyclo_points::points_law;
use rule_model::checked::Checked;
use std::alloc::Global;
use std::marker::Model;
use tile_shape::no_memory::NoMemory;

/// For each edge of each kind, the turn by which its vector becomes greatest. If one edge can be turned onto
/// another, both have the same greatest vector.
#[derive(Drop)]
pub(crate) struct EdgeTurns {
    /// The number of places for edges that each kind has.
    sides: u8,
    /// The turns, by kind and edge.
    turns: Vec<u8>,
}

impl Model for EdgeTurns {
    ghost use Rattle.tile_place.specs.EdgeTurns.{EdgeTable};

    ghost Value = { EdgeTable };

    ghost view = { λ x. record { sides = x.sides; turns = x.turns.items } };
}

impl EdgeTurns {
    /// Makes the turns of the edges of a rule. `vertices` are the vertices of its kinds.
    #[inline(never)]
    pub(crate) fn new(
        alloc: Global,
        checked: &Checked,
        vertices: &TurnedVertices,
    ) -> Result<EdgeTurns, NoMemory>
        requires vertices { AreTurned (tiling_of checked.now) vertices.now }
        ensures { IfOk result (λ turns. AreGreatest (tiling_of checked.now) turns) }
    {
        let sides = vertices.sides();
        let count = usize::from(checked.uses().kinds()) * usize::from(sides);
        let mut turns = Vec::with_capacity(alloc, count)?;
        for place in 0..count {
            let kind = (place / usize::from(sides)) as u8;
            let edge = place % usize::from(sides);
            turns.push(turn_if_edge(checked, vertices, kind, edge))?;
        }
        Ok(EdgeTurns { sides, turns })
    }

    /// Returns the turn of an edge.
    pub(crate) fn at(&self, kind: u8, edge: u8) -> u8
        requires exists { kind * self.now.sides + edge < length self.now.turns }
        ensures { result ≡ get_or self.now.turns (kind * self.now.sides + edge) 0 }
    {
        self.turns[usize::from(kind) * usize::from(self.sides) + usize::from(edge)]
    }
}

/// Returns the turn by which the vector of an edge becomes greatest, or 0 if the edge does not exist.
fn turn_if_edge(checked: &Checked, vertices: &TurnedVertices, kind: u8, start: usize) -> u8
    requires vertices { AreTurned (tiling_of checked.now) vertices.now }
    requires exists { kind < length (rule_of checked.now).kinds }
    ensures { start < edge_count (rule_of checked.now) kind
        → IsGreatest checked.now.order (edge_vector (points_of checked.now.order) (rule_of checked.now) kind
        start) result }
{
    let edges = checked.vertices(kind).len();
    if start < edges {
        let end = next_of(edges, start);
        greatest_turn(checked, vertices, PrototileEdge { kind, start, end })
    } else {
        0
    }
}

/// Returns the turn by which the vector of an edge becomes greatest.
fn greatest_turn(checked: &Checked, vertices: &TurnedVertices, edge: PrototileEdge) -> u8
    requires vertices { AreTurned (tiling_of checked.now) vertices.now }
    requires edge { IsEdgeOf checked.now edge }
    ensures { IsGreatest checked.now.order (edge_vector (points_of checked.now.order) (rule_of checked.now)
        edge.kind edge.start) result }
{
    let mut best = 0;
    for steps in 1..checked.order().n() {
        let vector = turned_vector(checked, vertices, edge, steps);
        let greatest = turned_vector(checked, vertices, edge, best);
        if is_above(&vector, &greatest) {
            best = steps;
        }
    }
    best
}

/// Returns the vector of an edge, turned by ζ^steps.
fn turned_vector(
    checked: &Checked,
    vertices: &TurnedVertices,
    edge: PrototileEdge,
    steps: u8,
) -> Point
    requires vertices { AreTurned (tiling_of checked.now) vertices.now }
    requires edge { IsEdgeOf checked.now edge }
    requires turn_below { steps < (points_of checked.now.order).order }
    ensures { result.c ≡ coefficients checked.now.order
        (turned_by checked.now.order steps (edge_vector (points_of checked.now.order) (rule_of checked.now)
        edge.kind edge.start)) }
{
    points_law(checked.order());
    let to = vertices.at(edge.kind, steps, edge.end);
    let from = vertices.at(edge.kind, steps, edge.start);
    sub(&to, &from)
}

/// Returns the vertex at which an edge ends, by number: the next one, or 0 after the last.
pub(crate) fn next_of(edges: usize, edge: usize) -> usize
    requires exists { edge < edges }
    ensures { result ≡ cond (nat_lt (suc edge) edges) (suc edge) 0 }
{
    let behind = edge + 1;
    if behind < edges { behind } else { 0 }
}
