use crate::lie::Lie;
use crate::line::Line;
use crate::placed_edge::PlacedEdge;

/// The inflated prototile of a kind: its edges, the edges of its children in order of child and edge,
/// and where each of these lies.
#[derive(Drop)]
pub(crate) struct Inflated {
    pub wholes: Vec<Line>,
    pub edges: Vec<PlacedEdge>,
    pub lies: Vec<Lie>,
}
