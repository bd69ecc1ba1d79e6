use cyclo_points::point::Point;
use edge_tables::child_edge::ChildEdge;
use edge_tables::contact::Contact;
use rule_model::child::Child;

/// The numbers of a kind, and its contact table, which follows from them.
///
/// - `vertices`: those of its prototile, counterclockwise.
/// - `edges`: the type of each edge.
/// - `children`: its children.
/// - `contacts`: for each child, the contact of each of its edges, in order.
/// - `parts`: for each edge, its parts, in order.
#[derive(Clone, Copy)]
pub struct KindNumbers<
    Points = &'static [Point],
    Types = &'static [u8],
    Children = &'static [Child],
    Contacts = &'static [&'static [Contact]],
    Parts = &'static [&'static [ChildEdge]],
> {
    pub vertices: Points,
    pub edges: Types,
    pub children: Children,
    pub contacts: Contacts,
    pub parts: Parts,
}
