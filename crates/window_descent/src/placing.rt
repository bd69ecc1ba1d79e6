//! How a part of a supertile lies relative to a window.
ghost use Rattle.std.specs.Prelude.{◌≡◌, ◌<◌, ◌^◌, IfSome, IsTrue};
ghost use Rattle.cyclo_points.specs.Point.{point_in, IsWithin};
ghost use Rattle.theory_walks.specs.Ancestors.{factor_power};
ghost use Rattle.rule_model.specs.Tiling.{tiling_of};
ghost use Rattle.window_descent.specs.Parts.{IsPlacedPart, IsPlacedBy, standing_of};
ghost use Rattle.window_descent.specs.Rows.{AreRows, levels_of};
ghost use Rattle.window_descent.specs.declared.standing.Standing.TheVariants as Standing;
ghost use Rattle.window_descent.specs.Reach.{IsInReach, HasArea};

use crate::bounds::Bounds;
use crate::inside::is_inside;
use crate::meeting::meets;
use crate::part::Part;
use crate::row_key::RowKey;
use crate::rows::Rows;
use crate::standing::{Standing, beside};
use cyclo_points::point::Point;
use plane_geom::window::Window;
use tile_place::machine::Machine;

/// Finds how a part lies relative to a window, or None if one of its vertices is refused. A tile, at level 0,
/// is never across: it is within if it meets the window, and otherwise beyond.
///
/// The bounds of the part are compared with the sides of the window. Only where this does not decide are its
/// vertices looked at.
pub fn place_of(
    machine: &Machine,
    window: &Window,
    rows: &mut Rows,
    level: u8,
    part: &Part,
) -> Option<Standing>
    requires part { IsPlacedPart machine.now part.now }
    requires rows { AreRows machine.now rows.old }
    requires level_exists { level < levels_of rows.old }
    requires centre_within { IsInReach window.now }
    requires some_width { 0 < window.now.w }
    requires some_height { 0 < window.now.h }
    ensures rows { AreRows machine.now rows.new }
    ensures levels { levels_of rows.new ≡ levels_of rows.old }
    ensures placed { IfSome result (IsPlacedBy (tiling_of machine.now) window.now level part.now) }
{
    match by_bounds(machine, window, rows, level, part) {
        Some(standing) => Some(standing),
        None => by_vertices(machine, window, level, &rows.scale(machine, level), part),
    }
}

/// Finds how a part lies relative to a window by its bounds. Returns None if they are not enough.
fn by_bounds(
    machine: &Machine,
    window: &Window,
    rows: &mut Rows,
    level: u8,
    part: &Part,
) -> Option<Standing>
    requires part { IsPlacedPart machine.now part.now }
    requires rows { AreRows machine.now rows.old }
    requires level_exists { level < levels_of rows.old }
    requires window { HasArea window.now }
    ensures rows { AreRows machine.now rows.new }
    ensures levels { levels_of rows.new ≡ levels_of rows.old }
    ensures placed { IfSome result (IsPlacedBy (tiling_of machine.now) window.now level part.now) }
{
    let order = machine.checked().order();
    let row = RowKey {
        level,
        kind: part.kind,
        turn: part.motion.turn,
    };
    let bounds = rows.bounds(machine, row)?;
    let limits = Bounds::limits(order, window, &part.motion.shift)?;
    unless_open(bounds.beside(&limits), level)
}

/// Returns how a part lies by its bounds, or None for a tile that is across.
fn unless_open(standing: Standing, level: u8) -> Option<Standing>
    ensures same { IfSome result (λ s. s ≡ standing) }
    ensures across { IfSome result (λ s. s ≡ Standing.Across → 0 < level) }
{
    match standing {
        Standing::Across if level == 0 => None,
        _ => Some(standing),
    }
}

/// Finds how a part lies relative to a window by its vertices, or None if one of them is refused. Most tiles
/// that meet a window have a corner in it, so this is tested first.
fn by_vertices(
    machine: &Machine,
    window: &Window,
    level: u8,
    scale: &Point,
    part: &Part,
) -> Option<Standing>
    requires part { IsPlacedPart machine.now part.now }
    requires scale_within { IsWithin (2 ^ 24) scale.now }
    requires scale_is { point_in machine.now.order scale.now ≡ factor_power (tiling_of machine.now) level }
    requires window { HasArea window.now }
    ensures placed { IfSome result (IsPlacedBy (tiling_of machine.now) window.now level part.now) }
{
    if level == 0 && has_corner_inside(machine, window, part) {
        return Some(Standing::Within);
    }
    by_outline(machine, window, level, scale, part)
}

/// Returns true only if a corner of a tile lies well inside a window. Then the tile meets the window.
fn has_corner_inside(machine: &Machine, window: &Window, part: &Part) -> bool
    requires part { IsPlacedPart machine.now part.now }
    requires window { HasArea window.now }
    ensures { IsTrue result → IsPlacedBy (tiling_of machine.now) window.now 0 part.now Standing.Within }
{
    let checked = machine.checked();
    let order = checked.order();
    for number in 0..checked.vertices(part.kind).len() {
        let corner = machine.corner(part.kind, &part.motion, number);
        if is_inside(order, window, &corner) {
            return true;
        }
    }
    false
}

/// Finds how a part lies relative to a window by its outline, or None if one of its vertices is refused.
fn by_outline(
    machine: &Machine,
    window: &Window,
    level: u8,
    scale: &Point,
    part: &Part,
) -> Option<Standing>
    requires part { IsPlacedPart machine.now part.now }
    requires scale_within { IsWithin (2 ^ 24) scale.now }
    requires scale_is { point_in machine.now.order scale.now ≡ factor_power (tiling_of machine.now) level }
    requires window { HasArea window.now }
    ensures placed { IfSome result (IsPlacedBy (tiling_of machine.now) window.now level part.now) }
{
    let order = machine.checked().order();
    let corners = match machine.outline(part.kind, scale, &part.motion) {
        Ok(corners) => corners,
        Err(_) => return None,
    };
    if level == 0 {
        Some(met(meets(order, window, corners.as_slice())))
    } else {
        Some(beside(order, window, corners.as_slice()))
    }
}

/// Returns `Within` for a tile that meets the window, and `Beyond` for one that does not.
fn met(meets: bool) -> Standing
    ensures { result ≡ standing_of meets }
{
    if meets {
        Standing::Within
    } else {
        Standing::Beyond
    }
}
