//! The chair: its file, its rule, and whether a rule is that.
ghost use Rattle.std.specs.Prelude.{◌≡◌, IfOk};
ghost use Rattle.theory_edge_to_edge.specs.Limited.{WithinLimits};
ghost use Rattle.cyclo_points.specs.Order.{points_of};
ghost use Rattle.rule_model.specs.Small.{is_small};
ghost use Rattle.rule_model.specs.Views.{as_rule};

use cyclo_points::order::Order;
use cyclo_points::point::Point;
use rule_model::child::Child;
use rule_model::edition::Edition;
use rule_model::kind_row::KindRow;
use rule_model::rule::Rule;
use rule_model::type_row::TypeRow;
use rule_text::reading::{LONGEST_FILE, read_rule};
use std::alloc::{AllocError, Global};

/// The chair.
pub const CHAIR: &str = "format = 1
order = 4
lambda = [2, 0, 0, 0]
glue = []

[[type]]
mate = 0
parts = [0, 0]

[[kind]]
vertices = [[1,1,0,0],[1,2,0,0],[0,2,0,0],[0,1,0,0],[0,0,0,0],[1,0,0,0],[2,0,0,0],[2,1,0,0]]
edges = [0, 0, 0, 0, 0, 0, 0, 0]
children = [[0,0, 0,0,0,0], [0,0, 1,1,0,0], [0,1, 4,0,0,0], [0,3, 0,4,0,0]]
";

/// The vertices of the chair.
const VERTICES: [Point; 8] = [
    Point { c: [1, 1, 0, 0] },
    Point { c: [1, 2, 0, 0] },
    Point { c: [0, 2, 0, 0] },
    Point { c: [0, 1, 0, 0] },
    Point { c: [0, 0, 0, 0] },
    Point { c: [1, 0, 0, 0] },
    Point { c: [2, 0, 0, 0] },
    Point { c: [2, 1, 0, 0] },
];

/// The children of the chair.
const CHILDREN: [Child; 4] = [
    Child {
        kind: 0,
        turn: 0,
        shift: Point { c: [0, 0, 0, 0] },
    },
    Child {
        kind: 0,
        turn: 0,
        shift: Point { c: [1, 1, 0, 0] },
    },
    Child {
        kind: 0,
        turn: 1,
        shift: Point { c: [4, 0, 0, 0] },
    },
    Child {
        kind: 0,
        turn: 3,
        shift: Point { c: [0, 4, 0, 0] },
    },
];

/// Returns the chair as a rule of the edition.
pub fn chair(alloc: Global, edition: Edition) -> Result<Rule, AllocError>
    ensures limits { IfOk result (λ rule. WithinLimits (points_of rule.order).order (is_small rule.order)
        (as_rule rule)) }
    ensures order { IfOk result (λ rule. rule.order ≡ Order.Four) }
{
    let parts = Vec::from_array(alloc, [0, 0])?;
    let types = Vec::from_array(alloc, [TypeRow { mate: 0, parts }])?;
    let vertices = Vec::from_array(alloc, VERTICES)?;
    let edges = Vec::from_array(alloc, [0; 8])?;
    let children = Vec::from_array(alloc, CHILDREN)?;
    let row = KindRow {
        vertices,
        edges,
        children,
    };
    let kinds = Vec::from_array(alloc, [row])?;
    let factor = Point { c: [2, 0, 0, 0] };
    let glue = Vec::new(alloc);
    Ok(Rule {
        edition,
        order: Order::Four,
        factor,
        glue,
        types,
        kinds,
    })
}

/// Returns true if the text is read to the chair.
pub fn is_read_to_chair(alloc: Global, text: &str) -> bool {
    text.len() <= LONGEST_FILE
        && match read_rule(alloc, text.as_bytes()) {
            Ok(rule) => is_chair(&rule),
            Err(_) => false,
        }
}

/// Returns true if the row is the chair's edge type.
fn is_type(row: &TypeRow) -> bool {
    row.mate == 0 && row.parts.as_slice() == [0, 0].as_slice()
}

/// Returns true if the row is the chair's kind.
fn is_kind(row: &KindRow) -> bool {
    row.vertices.as_slice() == VERTICES.as_slice()
        && row.edges.as_slice() == [0u8; 8].as_slice()
        && row.children.as_slice() == CHILDREN.as_slice()
}

/// Returns true if the rule is the chair.
pub fn is_chair(rule: &Rule) -> bool {
    match (rule.types.as_slice(), rule.kinds.as_slice()) {
        ([row], [kind]) => {
            rule.order == Order::Four
                && rule.factor.c == [2, 0, 0, 0]
                && rule.glue.is_empty()
                && is_type(row)
                && is_kind(kind)
        }
        _ => false,
    }
}
