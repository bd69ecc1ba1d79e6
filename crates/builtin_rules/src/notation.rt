//! The notation in which the rules are written.

/// A point, by its coefficients: a0 + a1 ζ + a2 ζ² + a3 ζ³.
macro_rules! point {
    ($a0:expr, $a1:expr, $a2:expr, $a3:expr) => {
        cyclo_points::point::Point { c: [$a0, $a1, $a2, $a3] }
    };
}

/// An edge type: its mate, then the types of its parts.
macro_rules! edge_type {
    ($mate:expr, $parts:expr) => {
        crate::type_numbers::TypeNumbers { mate: $mate, parts: &$parts }
    };
}

/// A child: its kind, its turn, and the four coefficients of its shift.
macro_rules! child {
    ($kind:expr, $turn:expr, $shift:expr) => {
        rule_model::child::Child { kind: $kind, turn: $turn, shift: cyclo_points::point::Point { c: $shift } }
    };
}

/// A child's edge that meets an edge of another child.
macro_rules! inner {
    ($child:expr, $edge:expr) => {
        edge_tables::contact::Contact::Inner { child: $child, edge: $edge }
    };
}

/// A child's edge that is a part of an edge of the parent.
macro_rules! outer {
    ($edge:expr, $part:expr) => {
        edge_tables::contact::Contact::Outer { edge: $edge, part: $part }
    };
}

/// An edge of a child, as a part of an edge of the parent.
macro_rules! part {
    ($child:expr, $edge:expr) => {
        edge_tables::child_edge::ChildEdge { child: $child, edge: $edge }
    };
}

pub(crate) use child;
pub(crate) use edge_type;
pub(crate) use inner;
pub(crate) use outer;
pub(crate) use part;
pub(crate) use point;
