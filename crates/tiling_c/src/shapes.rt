//! The shapes of a rule: its prototiles by edges and corners, the edges along which halves are glued, and the
//! corners of tiles.
ghost use Rattle.std.specs.Prelude.{◌≡◌, ◌≤◌, length};
ghost use Rattle.rule_model.specs.Tiling.{tiling_of};
ghost use Rattle.rule_model.specs.Views.{as_rule};
ghost use Rattle.theory_substitution.specs.RuleParts.{vertices_of};
ghost use Rattle.tile_place.specs.Crossed.{edges_of};
ghost use Rattle.c_values.specs.Statuses.{ok};
ghost use Rattle.tiling_c.specs.Shapes.{HasKind, ShowsEdges, ShowsPrototile, ShowsGlueEdge, ShowsCorners};

use crate::rule_numbers::kinds_of;
use arrayvec::ArrayVec;
use c_values::plain_outline::PlainOutline;
use c_values::plain_tile::PlainTile;
use c_values::shared_machine::SharedMachine;
use c_values::status::{BAD_WORDS, NO_EDGE, OK};
use cyclo_points::point::Point;
use tile_place::machine::Machine;

/// Returns the corners of a kind's prototile.
fn prototile(machine: &Machine, kind: u8) -> &[Point]
    requires exists { HasKind (tiling_of machine.now) kind }
    ensures lists { result.now ≡ vertices_of (as_rule machine.now) kind }
    ensures each_edge { length result.now ≡ edges_of (tiling_of machine.now) kind }
    ensures at_most_12 { length result.now ≤ 12 }
{
    machine.checked().vertices(kind)
}

/// Returns the number of edges of a kind, which is also its number of corners.
#[unsafe(no_mangle)]
pub extern "C" fn tiling_edges(t: SharedMachine, kind: u8, count: &mut u8) -> u8
    ensures shown { ShowsEdges (tiling_of t.rule) kind count.new result }
    ensures unchanged { ¬ result ≡ ok → count.new ≡ count.old }
{
    let machine = t.get();
    if kind >= kinds_of(machine) {
        return BAD_WORDS;
    }
    let corners = prototile(machine, kind);
    *count = corners.len() as u8;
    OK
}

/// Returns the corners of a kind's prototile, in the order of the rule.
#[unsafe(no_mangle)]
pub extern "C" fn tiling_prototile(t: SharedMachine, kind: u8, out: &mut PlainOutline) -> u8
    ensures shown { ShowsPrototile t.rule kind out.old out.new result }
    ensures unchanged { ¬ result ≡ ok → out.new ≡ out.old }
{
    let machine = t.get();
    if kind >= kinds_of(machine) {
        return BAD_WORDS;
    }
    out.write(prototile(machine, kind));
    OK
}

/// Returns the edge along which a kind, half of a whole tile, is glued to the other half.
#[unsafe(no_mangle)]
pub extern "C" fn tiling_glue_edge(t: SharedMachine, kind: u8, edge: &mut u8) -> u8
    ensures shown { ShowsGlueEdge (tiling_of t.rule) kind edge.new result }
    ensures unchanged { ¬ result ≡ ok → edge.new ≡ edge.old }
{
    let machine = t.get();
    if kind >= kinds_of(machine) {
        return BAD_WORDS;
    }
    match machine.checked().glue_edge(kind) {
        Some(number) => {
            *edge = number;
            OK
        }
        None => NO_EDGE,
    }
}

/// Returns the corners of a tile at its place, counterclockwise.
#[unsafe(no_mangle)]
pub extern "C" fn tiling_corners(t: SharedMachine, tile: &PlainTile, out: &mut PlainOutline) -> u8
    ensures shown { ShowsCorners (tiling_of t.rule) tile.now out.old out.new result }
    ensures unchanged { ¬ result ≡ ok → out.new ≡ out.old }
{
    let machine = t.get();
    if tile.kind >= kinds_of(machine) {
        return BAD_WORDS;
    }
    let Some(motion) = tile.motion(machine.checked().order()) else {
        return BAD_WORDS;
    };
    let mut corners = ArrayVec::new();
    machine.put_corners(tile.kind, &motion, &mut corners);
    out.write(corners.as_slice());
    OK
}
