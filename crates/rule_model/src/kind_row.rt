use crate::child::Child;
use cyclo_points::point::Point;

/// A kind of a rule.
///
/// - `vertices`: those of its prototile, counterclockwise.
/// - `edges`: the type of each edge. Edge i runs from vertex i to the next.
/// - `children`: the tiles that fill the inflated prototile.
#[derive(Debug, Drop)]
pub struct KindRow {
    pub vertices: Vec<Point>,
    pub edges: Vec<u8>,
    pub children: Vec<Child>,
}
