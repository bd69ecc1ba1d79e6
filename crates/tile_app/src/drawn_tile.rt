//! Tiles and whole tiles, ready to be drawn.
ghost use Rattle.std.specs.Prelude.{◌≡◌, ◌+◌, ◌<◌, ◌≤◌, All, Some, drop, length, map, take};
ghost use Rattle.cyclo_points.specs.Motion.{motion_in};
ghost use Rattle.cyclo_points.specs.declared.order.Order.{Order};
ghost use Rattle.cyclo_points.specs.Order.{points_of};
ghost use Rattle.half_glue.specs.Outline.{glue_edge_of, begun_behind, inner_of, vertices_in_place, outline_by, outline_of};
ghost use Rattle.layer_api.specs.Drawable.{IsNear, IsDrawable};
ghost use Rattle.rule_model.specs.Tiling.{tiling_of};
ghost use Rattle.rule_model.specs.Views.{rule_of};
ghost use Rattle.theory_substitution.specs.Motion.{moved};
ghost use Rattle.theory_substitution.specs.RuleParts.{vertices_of, edge_count};
ghost use Rattle.tile_app.specs.GlueEdges.{AreGlueEdges};
ghost use Rattle.tile_app.specs.DrawnTile.{point_of_number, tile_drawn, whole_by, drawn_of, drawn_whole, CanBeDrawn, IsDrawableHalf, CanBeDrawnWhole};

use crate::glue_edges::GlueEdges;
use arrayvec::ArrayVec;
use cyclo_points::motion::Motion;
use cyclo_points::point::Point;
use layer_api::drawn::{Drawn, MOST_VERTICES};
use layer_api::part::Part;
use tile_place::machine::Machine;
use tile_shape::address::Address;

/// Makes an empty part, to be filled.
pub fn blank_part() -> Part {
    Part {
        kind: 0,
        motion: Motion::default(),
        addr: Address::new(0),
    }
}

/// Makes a tile that may be put into a layer: its three vertices are the origin.
pub fn stand_in() -> Drawn
    ensures { (order : Order) → IsDrawable order result }
{
    let origin = Point { c: [0, 0, 0, 0] };
    let mut outline = ArrayVec::new();
    outline.push(origin);
    outline.push(origin);
    outline.push(origin);
    Drawn {
        class: 0,
        outline,
        first: blank_part(),
        second: None,
    }
}

/// Gives an outline this many points, whatever they are.
fn resize(outline: &mut ArrayVec<Point, MOST_VERTICES>, count: usize)
    requires at_most { count ≤ 24 }
    ensures { length outline.new.items ≡ count }
{
    if count < outline.len() {
        outline.truncate(count);
    }
    while outline.len() < count {
        outline.push(Point::default());
    }
}

/// Overwrites points with as many vertices of a tile, in order, from one number on.
fn overwrite(points: &mut [Point], machine: &Machine, part: &Part, first: usize)
    requires there { first + length points.old ≤ edge_count (rule_of machine.now) part.now.kind }
    requires can { CanBeDrawn (tiling_of machine.now) (tile_drawn part.now) }
    ensures near { All (IsNear machine.now.order) points.new }
    ensures placed { points.new ≡ map (λ z. point_of_number machine.now.order
        (moved (points_of machine.now.order) (motion_in machine.now.order part.now.motion) z))
        (take (length points.old) (drop first (vertices_of (rule_of machine.now) part.now.kind))) }
{
    let _each_edge = machine.checked().vertices(part.kind);
    for number in 0..points.len() {
        points[number] = machine.corner(part.kind, &part.motion, first + number);
    }
}

/// Replaces an outline by that of a tile.
fn put_tile(outline: &mut ArrayVec<Point, MOST_VERTICES>, machine: &Machine, part: &Part)
    requires can { CanBeDrawn (tiling_of machine.now) (tile_drawn part.now) }
    ensures three { 3 ≤ length outline.new.items }
    ensures near { All (IsNear machine.now.order) outline.new.items }
    ensures placed { outline.new.items ≡ map (λ z. point_of_number machine.now.order
        (moved (points_of machine.now.order) (motion_in machine.now.order part.now.motion) z))
        (vertices_of (rule_of machine.now) part.now.kind) }
{
    resize(outline, machine.checked().vertices(part.kind).len());
    overwrite(outline.as_mut_slice(), machine, part, 0);
}

/// Overwrites points with the vertices of the first half of a whole tile. They run from the end of its glue
/// edge around to the start of that edge.
fn overwrite_first_half(points: &mut [Point], machine: &Machine, edges: &GlueEdges, half: &Part)
    requires edges { AreGlueEdges (tiling_of machine.now) edges.now }
    requires as_many { length points.old ≡ edge_count (rule_of machine.now) half.now.kind }
    requires half { IsDrawableHalf (tiling_of machine.now) (tile_drawn half.now) }
    ensures near { All (IsNear machine.now.order) points.new }
    ensures placed { points.new ≡ map (point_of_number machine.now.order)
        (begun_behind (glue_edge_of (rule_of machine.now) half.now.kind)
        (vertices_in_place (tiling_of machine.now) (tile_drawn half.now))) }
{
    let _each_edge = machine.checked().vertices(half.kind);
    let after = edges.of(machine, half) + 1;
    let count = points.len();
    let (behind, before) = points.split_at_mut(count - after);
    overwrite(behind, machine, half, after);
    overwrite(before, machine, half, 0);
}

/// Overwrites points with the vertices of the second half that are not on its glue edge, from the end of that
/// edge around.
fn overwrite_second_half(points: &mut [Point], machine: &Machine, edges: &GlueEdges, half: &Part)
    requires edges { AreGlueEdges (tiling_of machine.now) edges.now }
    requires as_many { length points.old + 2 ≡ edge_count (rule_of machine.now) half.now.kind }
    requires half { IsDrawableHalf (tiling_of machine.now) (tile_drawn half.now) }
    ensures near { All (IsNear machine.now.order) points.new }
    ensures placed { points.new ≡ map (point_of_number machine.now.order) (inner_of
        (begun_behind (glue_edge_of (rule_of machine.now) half.now.kind)
        (vertices_in_place (tiling_of machine.now) (tile_drawn half.now)))) }
{
    let _each_edge = machine.checked().vertices(half.kind);
    let edge = edges.of(machine, half);
    let count = points.len();
    if count < edge {
        return overwrite(points, machine, half, 1);
    }
    let (behind, before) = points.split_at_mut(count - edge);
    overwrite(behind, machine, half, edge + 2);
    overwrite(before, machine, half, 0);
}

/// Replaces an outline by that of two halves glued.
fn put_halves(
    outline: &mut ArrayVec<Point, MOST_VERTICES>,
    machine: &Machine,
    edges: &GlueEdges,
    first: &Part,
    second: &Part,
)
    requires edges { AreGlueEdges (tiling_of machine.now) edges.now }
    requires first { IsDrawableHalf (tiling_of machine.now) (tile_drawn first.now) }
    requires second { IsDrawableHalf (tiling_of machine.now) (tile_drawn second.now) }
    ensures three { 3 ≤ length outline.new.items }
    ensures near { All (IsNear machine.now.order) outline.new.items }
    ensures placed { outline.new.items ≡ map (point_of_number machine.now.order)
        (outline_by (tiling_of machine.now) (tile_drawn first.now) (Some (tile_drawn second.now))) }
{
    let count = machine.checked().vertices(first.kind).len();
    let inner = machine.checked().vertices(second.kind).len() - 2;
    resize(outline, count + inner);
    let (of_first, of_second) = outline.as_mut_slice().split_at_mut(count);
    overwrite_first_half(of_first, machine, edges, first);
    overwrite_second_half(of_second, machine, edges, second);
}

/// Replaces an outline by that of the whole tile with these parts.
fn put_whole(
    outline: &mut ArrayVec<Point, MOST_VERTICES>,
    machine: &Machine,
    edges: &GlueEdges,
    first: &Part,
    second: &Option<Part>,
)
    requires edges { AreGlueEdges (tiling_of machine.now) edges.now }
    requires can { CanBeDrawnWhole (tiling_of machine.now) (whole_by first.now second.now) }
    ensures three { 3 ≤ length outline.new.items }
    ensures near { All (IsNear machine.now.order) outline.new.items }
    ensures placed { outline.new.items ≡ map (point_of_number machine.now.order)
        (outline_of (tiling_of machine.now) (whole_by first.now second.now)) }
{
    match second {
        None => put_tile(outline, machine, first),
        Some(second) => put_halves(outline, machine, edges, first, second),
    }
}

/// Fills in a tile from its first part alone.
pub fn fill(drawn: &mut Drawn, machine: &Machine)
    requires can { CanBeDrawn (tiling_of machine.now) (tile_drawn drawn.old.first) }
    ensures tile { drawn.new ≡ drawn_of (tiling_of machine.now) (tile_drawn drawn.old.first) }
    ensures drawable { IsDrawable machine.now.order drawn.new }
{
    let kind = drawn.first.kind;
    drawn.class = kind;
    put_tile(&mut drawn.outline, machine, &drawn.first);
    if drawn.second.is_some() {
        drawn.second = None;
    }
}

/// Fills in a whole tile from its parts.
pub fn fill_whole(drawn: &mut Drawn, machine: &Machine, edges: &GlueEdges)
    requires edges { AreGlueEdges (tiling_of machine.now) edges.now }
    requires can { CanBeDrawnWhole (tiling_of machine.now) (whole_by drawn.old.first drawn.old.second) }
    ensures tile { drawn.new ≡ drawn_whole (tiling_of machine.now)
        (whole_by drawn.old.first drawn.old.second) }
    ensures drawable { IsDrawable machine.now.order drawn.new }
{
    drawn.class = drawn.first.kind;
    put_whole(
        &mut drawn.outline,
        machine,
        edges,
        &drawn.first,
        &drawn.second,
    );
}
