use crate::line::Line;
use edge_tables::child_edge::ChildEdge;

/// An edge of a child in its parent's inflated prototile: the child's number, the edge's, its type,
/// and where it lies.
#[derive(Clone, Copy)]
pub(crate) struct PlacedEdge {
    pub child: u8,
    pub edge: u8,
    pub ty: u8,
    pub line: Line,
}

impl PlacedEdge {
    ghost use Rattle.std.specs.Prelude.{◌≡◌};
    ghost use Rattle.theory_edge_to_edge.specs.Contacts.{edge_name};
    ghost use Rattle.cyclo_points.specs.declared.order.Order.{Order};
    ghost use Rattle.edge_tables.specs.Views.{as_child_edge};
    ghost use Rattle.dissect_check.specs.Views.{edge_in};

    /// The child's number and the edge's.
    pub(crate) fn name(&self) -> ChildEdge
        ensures { (o : Order) → as_child_edge result ≡ edge_name (edge_in o self.now) }
    {
        ChildEdge {
            child: self.child,
            edge: self.edge,
        }
    }
}
