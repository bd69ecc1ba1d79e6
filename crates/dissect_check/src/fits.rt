//! Whether the counts and numbers of a rule fit their limits.
ghost use Rattle.std.specs.Prelude.{◌≡◌, ◌<◌, length, map};
ghost use Rattle.std.specs.List.{list_all};
ghost use Rattle.theory_substitution.specs.Rule.{kind_of};
ghost use Rattle.theory_edge_to_edge.specs.Limits.{is_type, is_child, kinds_fit, types_fit, glue_fits, parts_fit, edges_fit, vertices_fit, children_fit};
ghost use Rattle.cyclo_points.specs.Order.{points_of};
ghost use Rattle.rule_model.specs.Small.{is_small};
ghost use Rattle.rule_model.specs.Views.{as_rule, as_kind, as_child};
ghost use Rattle.dissect_check.specs.Places.{ListsKind, ListsType};

use cyclo_points::order::Order;
use cyclo_points::point::Point;
use rule_model::child::Child;
use rule_model::kind_row::KindRow;
use rule_model::rule::Rule;
use rule_model::small::is_small;

/// Returns true if each number is that of an edge type.
fn are_types(rule: &Rule, numbers: &[u8]) -> bool
    ensures { result ≡ list_all (is_type (as_rule rule.now)) numbers.now }
{
    numbers
        .iter()
        .all(|&ty| usize::from(ty) < rule.type_count())
}

/// Returns true if each point is small.
fn are_small(order: Order, points: &[Point]) -> bool
    ensures { result ≡ list_all (is_small order) points.now }
{
    points.iter().all(|p| is_small(order, p))
}

/// Returns true if the child's kind exists, its turn is below n, and its shift is small.
fn is_child(rule: &Rule, child: &Child) -> bool
    ensures { result ≡ is_child (points_of rule.now.order).order (is_small rule.now.order)
        (as_rule rule.now) (as_child child.now) }
{
    usize::from(child.kind) < rule.kind_count()
        && child.turn < rule.order.n()
        && is_small(rule.order, &child.shift)
}

/// Returns true if each is a child of a kind.
fn are_children(rule: &Rule, children: &[Child]) -> bool
    ensures { result ≡ list_all
        (is_child (points_of rule.now.order).order (is_small rule.now.order) (as_rule rule.now))
        (map as_child children.now) }
{
    children.iter().all(|child| is_child(rule, child))
}

/// Returns true if there are 1 to 16 kinds.
pub(crate) fn kinds_fit(rule: &Rule) -> bool
    ensures { result ≡ kinds_fit (as_rule rule.now) }
{
    (1..=16).contains(&rule.kind_count())
}

/// Returns true if there are 1 to 32 edge types.
pub(crate) fn types_fit(rule: &Rule) -> bool
    ensures { result ≡ types_fit (as_rule rule.now) }
{
    (1..=32).contains(&rule.type_count())
}

/// Returns true if there are at most 16 glue types, each an edge type.
pub(crate) fn glue_fits(rule: &Rule) -> bool
    ensures { result ≡ glue_fits (as_rule rule.now) }
{
    rule.glue.len() <= 16 && are_types(rule, &rule.glue)
}

/// Returns true if the type has 1 to 8 parts, each an edge type.
pub(crate) fn parts_fit(rule: &Rule, ty: usize) -> bool
    requires { ListsType rule.now ty }
    ensures { result ≡ parts_fit (as_rule rule.now) ty }
{
    let parts = &rule.types[ty].parts;
    (1..=8).contains(&parts.len()) && are_types(rule, parts)
}

/// The row of a kind.
fn row(rule: &Rule, kind: usize) -> &KindRow
    requires { ListsKind rule.now kind }
    ensures { as_kind result.now ≡ kind_of (as_rule rule.now) kind }
{
    &rule.kinds[kind]
}

/// Returns true if the kind has 3 to 12 edges, as many as vertices, each of a type.
pub(crate) fn edges_fit(rule: &Rule, kind: usize) -> bool
    requires { ListsKind rule.now kind }
    ensures { result ≡ edges_fit (as_rule rule.now) kind }
{
    let row = row(rule, kind);
    (3..=12).contains(&row.edges.len())
        && row.vertices.len() == row.edges.len()
        && are_types(rule, &row.edges)
}

/// Returns true if each vertex of the kind is small.
pub(crate) fn vertices_fit(rule: &Rule, kind: usize) -> bool
    requires { ListsKind rule.now kind }
    ensures { result ≡ vertices_fit (is_small rule.now.order) (as_rule rule.now) kind }
{
    are_small(rule.order, &row(rule, kind).vertices)
}

/// Returns true if the kind has 1 to 16 children, each within its limits.
pub(crate) fn children_fit(rule: &Rule, kind: usize) -> bool
    requires { ListsKind rule.now kind }
    ensures { result ≡ children_fit (points_of rule.now.order).order (is_small rule.now.order)
        (as_rule rule.now) kind }
{
    let children = &row(rule, kind).children;
    (1..=16).contains(&children.len()) && are_children(rule, children)
}
