//! The numbers of a rule, one by one. Contracts see them as the lists have them, and as numbers of the ring
//! of each order.
ghost use Rattle.std.specs.Prelude.{◌≡◌, ◌<◌, length, map, get_or};
ghost use Rattle.theory_substitution.specs.Rule.{Child as TheChild, kind_of, children_of};
ghost use Rattle.theory_substitution.specs.RuleParts.{map_kind, mate, parts, vertices_of, edge_count, edge_type, vertex, child_of};
ghost use Rattle.theory_edge_to_edge.specs.Glue.{glue_type};
ghost use Rattle.cyclo_points.specs.declared.order.Order.{Order};
ghost use Rattle.cyclo_points.specs.declared.point.Point.{Point};
ghost use Rattle.cyclo_points.specs.Order.{points_of};
ghost use Rattle.cyclo_points.specs.Point.{point_in};
ghost use Rattle.rule_model.specs.Views.{as_rule, as_kind, as_child, rule_in, rule_of, child_in};
ghost use Rattle.rule_model.specs.Usable.{IsSmall, IsUsable};

use crate::child::Child;
use crate::kind_row::KindRow;
use crate::rule::Rule;
use cyclo_points::point::Point;

impl Rule {
    /// Returns the number of edge types.
    pub fn type_count(&self) -> usize
        ensures lists { result ≡ length (as_rule self.now).types }
        ensures numbers { (o : Order) → result ≡ length (rule_in o self.now).types }
    {
        self.types.len()
    }

    /// Returns the number of kinds.
    pub fn kind_count(&self) -> usize
        ensures lists { result ≡ length (as_rule self.now).kinds }
        ensures numbers { (o : Order) → result ≡ length (rule_in o self.now).kinds }
    {
        self.kinds.len()
    }

    /// Returns the number of glue types.
    pub fn glue_count(&self) -> usize
        ensures lists { result ≡ length (as_rule self.now).glue }
        ensures numbers { (o : Order) → result ≡ length (rule_in o self.now).glue }
    {
        self.glue.len()
    }

    /// Returns glue type `i`, an edge type.
    pub fn glue_type(&self, i: usize) -> usize
        requires { i < length (as_rule self.now).glue }
        ensures lists { result ≡ glue_type (as_rule self.now) i }
        ensures numbers { (o : Order) → result ≡ glue_type (rule_in o self.now) i }
    {
        usize::from(self.glue[i])
    }

    /// Returns the mate of an edge type.
    pub fn mate(&self, ty: usize) -> usize
        requires { ty < length (as_rule self.now).types }
        ensures lists { result ≡ mate (as_rule self.now) ty }
        ensures numbers { (o : Order) → result ≡ mate (rule_in o self.now) ty }
    {
        usize::from(self.types[ty].mate)
    }

    /// Returns the number of parts into which an edge type is cut.
    pub fn part_count(&self, ty: usize) -> usize
        requires { ty < length (as_rule self.now).types }
        ensures lists { result ≡ length (parts (as_rule self.now) ty) }
        ensures numbers { (o : Order) → result ≡ length (parts (rule_in o self.now) ty) }
    {
        self.types[ty].parts.len()
    }

    /// Returns the type of part `i` of an edge type.
    pub fn part(&self, ty: usize, i: usize) -> usize
        requires ty_in { ty < length (as_rule self.now).types }
        requires i_in { i < length (parts (as_rule self.now) ty) }
        ensures lists { result ≡ get_or (parts (as_rule self.now) ty) i 0 }
        ensures numbers { (o : Order) → result ≡ get_or (parts (rule_in o self.now) ty) i 0 }
    {
        usize::from(self.types[ty].parts[i])
    }

    /// Returns the row of a kind, with a contract over the lists alone.
    fn listed_row(&self, kind: usize) -> &KindRow
        requires { kind < length (as_rule self.now).kinds }
        ensures { as_kind result.now ≡ kind_of (as_rule self.now) kind }
    {
        &self.kinds[kind]
    }

    /// Returns the row of a kind.
    fn row(&self, kind: usize) -> &KindRow
        requires { kind < length (as_rule self.now).kinds }
        ensures lists { as_kind result.now ≡ kind_of (as_rule self.now) kind }
        ensures numbers { (o : Order) → map_kind (point_in o) (as_kind result.now) ≡ kind_of
            (rule_in o self.now) kind }
    {
        self.listed_row(kind)
    }

    /// Returns the number of edges of a kind.
    pub fn edge_count(&self, kind: usize) -> usize
        requires { kind < length (as_rule self.now).kinds }
        ensures lists { result ≡ edge_count (as_rule self.now) kind }
        ensures numbers { (o : Order) → result ≡ edge_count (rule_in o self.now) kind }
    {
        self.row(kind).edges.len()
    }

    /// Returns the type of an edge of a kind.
    pub fn edge_type(&self, kind: usize, edge: usize) -> usize
        requires kind_in { kind < length (as_rule self.now).kinds }
        requires edge_in { edge < edge_count (as_rule self.now) kind }
        ensures lists { result ≡ edge_type (as_rule self.now) kind edge }
        ensures numbers { (o : Order) → result ≡ edge_type (rule_in o self.now) kind edge }
    {
        usize::from(self.row(kind).edges[edge])
    }

    /// Returns the number of vertices of a kind.
    pub fn vertex_count(&self, kind: usize) -> usize
        requires { kind < length (as_rule self.now).kinds }
        ensures lists { result ≡ length (vertices_of (as_rule self.now) kind) }
        ensures numbers { (o : Order) → result ≡ length (vertices_of (rule_in o self.now) kind) }
    {
        self.row(kind).vertices.len()
    }

    /// Returns the vertices of a kind.
    pub fn vertices(&self, kind: usize) -> &[Point]
        requires { kind < length (as_rule self.now).kinds }
        ensures lists { result.now ≡ vertices_of (as_rule self.now) kind }
        ensures numbers { (o : Order) → map (point_in o) result.now ≡ vertices_of (rule_in o self.now) kind }
    {
        self.row(kind).vertices.as_slice()
    }

    /// Returns vertex `i` of a kind.
    pub fn vertex(&self, kind: usize, i: usize) -> Point
        requires kind_in { kind < length (as_rule self.now).kinds }
        requires i_in { i < length (vertices_of (as_rule self.now) kind) }
        ensures lists { (none : Point) → result ≡ get_or (vertices_of (as_rule self.now) kind) i none }
        ensures numbers { (o : Order) → point_in o result
            ≡ vertex (points_of o) (rule_in o self.now) kind i }
    {
        self.row(kind).vertices[i]
    }

    /// Returns the number of children of a kind.
    pub fn child_count(&self, kind: usize) -> usize
        requires { kind < length (as_rule self.now).kinds }
        ensures lists { result ≡ length (children_of (as_rule self.now) kind) }
        ensures numbers { (o : Order) → result ≡ length (children_of (rule_in o self.now) kind) }
    {
        self.row(kind).children.len()
    }

    /// Returns child `i` of a kind, with a contract over the lists alone.
    fn listed_child(&self, kind: usize, i: usize) -> Child
        requires kind_in { kind < length (as_rule self.now).kinds }
        requires i_in { i < length (children_of (as_rule self.now) kind) }
        ensures { (none : TheChild Point) → as_child result ≡ get_or (children_of (as_rule self.now) kind) i
            none }
    {
        self.row(kind).children[i]
    }

    /// Returns child `i` of a kind.
    pub fn child(&self, kind: usize, i: usize) -> Child
        requires kind_in { kind < length (as_rule self.now).kinds }
        requires i_in { i < length (children_of (as_rule self.now) kind) }
        ensures lists { (none : TheChild Point) → as_child result ≡ get_or
            (children_of (as_rule self.now) kind) i none }
        ensures numbers { (o : Order) → child_in o result
            ≡ child_of (points_of o) (rule_in o self.now) kind i }
    {
        self.listed_child(kind, i)
    }

    /// Returns vertex `i` of a kind of a usable rule, so its coefficients are at most 64 in absolute value.
    pub fn corner(&self, kind: usize, i: usize) -> Point
        requires usable { IsUsable self.now }
        requires kind_in { kind < length (rule_of self.now).kinds }
        requires i_in { i < edge_count (rule_of self.now) kind }
        ensures number { point_in self.now.order result
            ≡ vertex (points_of self.now.order) (rule_of self.now) kind i }
        ensures small { IsSmall self.now.order result }
    {
        self.vertex(kind, i)
    }

    /// Returns child `i` of a kind of a usable rule. So the coefficients of its shift are at most 64 in
    /// absolute value, its turn is below the order, and its kind exists.
    pub fn tile(&self, kind: usize, i: usize) -> Child
        requires usable { IsUsable self.now }
        requires kind_in { kind < length (rule_of self.now).kinds }
        requires i_in { i < length (children_of (rule_of self.now) kind) }
        ensures number { child_in self.now.order result
            ≡ child_of (points_of self.now.order) (rule_of self.now) kind i }
        ensures small { IsSmall self.now.order result.shift }
        ensures turn_below { result.turn < (points_of self.now.order).order }
        ensures kind_exists { result.kind < length (rule_of self.now).kinds }
    {
        self.child(kind, i)
    }
}
