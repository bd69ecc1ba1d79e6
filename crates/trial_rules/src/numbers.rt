//! The numbers of the chair, each read once.
use crate::given::rule;
use crate::shapes::CHAIR;
use cyclo_points::point::Point;
use rule_model::child::Child;
use rule_model::rule::Rule;
use std::alloc::{AllocError, Global};

/// The vertex, where there is one, and how many there are.
fn vertex_there(rule: &Rule, kind: usize, i: usize) -> (Option<Point>, usize) {
    if kind >= rule.kind_count() {
        return (None, 0);
    }
    let count = rule.vertex_count(kind);
    if i < count {
        (Some(rule.vertex(kind, i)), rule.vertices(kind).len())
    } else {
        (None, count)
    }
}

/// The type of the edge, where there is one, and how many there are.
fn edge_there(rule: &Rule, kind: usize, i: usize) -> (Option<usize>, usize) {
    if kind >= rule.kind_count() {
        return (None, 0);
    }
    let count = rule.edge_count(kind);
    if i < count {
        (Some(rule.edge_type(kind, i)), count)
    } else {
        (None, count)
    }
}

/// The child, where there is one, and how many there are.
fn child_there(rule: &Rule, kind: usize, i: usize) -> (Option<Child>, usize) {
    if kind >= rule.kind_count() {
        return (None, 0);
    }
    let count = rule.child_count(kind);
    if i < count {
        (Some(rule.child(kind, i)), count)
    } else {
        (None, count)
    }
}

/// The mate of a type and the type of a part of it, where there are such.
fn type_there(rule: &Rule, ty: usize, i: usize) -> Option<(usize, usize)> {
    if ty < rule.type_count() && i < rule.part_count(ty) {
        Some((rule.mate(ty), rule.part(ty, i)))
    } else {
        None
    }
}

/// A glue type, where there is one.
fn glue_there(rule: &Rule, i: usize) -> Option<usize> {
    if i < rule.glue_count() {
        Some(rule.glue_type(i))
    } else {
        None
    }
}

/// Returns true if the last vertex is read, and none after it.
fn reads_vertices(rule: &Rule) -> bool {
    vertex_there(rule, 0, 7) == (Some(Point { c: [2, 1, 0, 0] }), 8)
        && vertex_there(rule, 0, 8) == (None, 8)
}

/// Returns true if the last edge is read, and none of a second kind.
fn reads_edges(rule: &Rule) -> bool {
    edge_there(rule, 0, 7) == (Some(0), 8) && edge_there(rule, 1, 0) == (None, 0)
}

/// Returns true if the last child is read, and none after it.
fn reads_children(rule: &Rule) -> bool {
    let last = Child {
        kind: 0,
        turn: 3,
        shift: Point { c: [0, 4, 0, 0] },
    };
    child_there(rule, 0, 3) == (Some(last), 4) && child_there(rule, 0, 4) == (None, 4)
}

/// Returns true if the second part of the edge type is read, none after it, and no glue type.
fn reads_types(rule: &Rule) -> bool {
    type_there(rule, 0, 1) == Some((0, 0))
        && type_there(rule, 0, 2) == None
        && glue_there(rule, 0) == None
}

/// Returns true if the numbers of the chair are read.
pub fn reads_the_chair(alloc: Global) -> Result<bool, AllocError> {
    let rule = rule(alloc, CHAIR)?;
    Ok(reads_vertices(&rule) && reads_edges(&rule) && reads_children(&rule) && reads_types(&rule))
}
