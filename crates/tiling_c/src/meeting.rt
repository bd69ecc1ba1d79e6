//! Which placed tiles meet a window.
ghost use Rattle.std.specs.Prelude.{◌≡◌, ◌↔◌, ◌<◌, ℕ, length, get_or, All, IsSome, IfSome, IsTrue};
ghost use Rattle.rule_model.specs.Tiling.{tiling_of};
ghost use Rattle.window_cover.specs.Windows.{IsWindow, MeetsWindow};
ghost use Rattle.c_values.specs.Statuses.{ok};
ghost use Rattle.c_values.specs.Windows.{window_in};
ghost use Rattle.tiling_c.specs.Arrays.{plain_tile_at};
ghost use Rattle.tiling_c.specs.Meeting.{AsksWhichMeet, ShowsMeeting, ShowsWhichMeet, tile_given};
ghost use Rattle.tiling_c.specs.Shapes.{IsPlainTile};

use crate::rule_numbers::kinds_of;
use arrayvec::ArrayVec;
use c_values::plain_tile::PlainTile;
use c_values::plain_window::PlainWindow;
use c_values::shared_machine::SharedMachine;
use c_values::status::{BAD_WORDS, OK};
use cyclo_points::motion::Motion;
use cyclo_points::point::Point;
use plane_geom::window::Window;
use tile_place::machine::Machine;
use window_descent::meeting::meets;
use window_descent::standing::{Standing, beside};

/// Returns true if the numbers are a tile of a machine's rule at its place.
fn is_tile(machine: &Machine, tile: &PlainTile) -> bool
    ensures { IsTrue result ↔ IsPlainTile (tiling_of machine.now) tile.now }
{
    tile.kind < kinds_of(machine) && tile.motion(machine.checked().order()).is_some()
}

/// Returns true if each entry of an array is such a tile.
fn are_tiles(machine: &Machine, tiles: &[PlainTile]) -> bool
    ensures { IsTrue result ↔ All (IsPlainTile (tiling_of machine.now)) tiles.now }
{
    tiles.iter().all(|tile| is_tile(machine, tile))
}

/// Returns the window that the numbers give. None exactly if they give none, or the arrays are not tiles of
/// the rule and as many flags.
fn window_asked(
    machine: &Machine,
    tiles: &[PlainTile],
    window: &PlainWindow,
    flags: &[u8],
) -> Option<Window>
    ensures window { IfSome result (λ w. w ≡ window_in machine.now.order window.now) }
    ensures fits { IfSome result IsWindow }
    ensures asked { IsSome result ↔ AsksWhichMeet (tiling_of machine.now) window.now tiles.now flags.now }
{
    if flags.len() != tiles.len() || !are_tiles(machine, tiles) {
        return None;
    }
    window.window(machine.checked().order())
}

/// Returns true if a tile meets a window. Most tiles that don't are beyond one of its sides, so this is tested
/// first.
fn tile_meets(machine: &Machine, tile: &PlainTile, window: &Window) -> bool
    requires is_tile { IsPlainTile (tiling_of machine.now) tile.now }
    requires window_fits { IsWindow window.now }
    ensures { IsTrue result ↔ MeetsWindow (tiling_of machine.now) window.now
        (tile_given (tiling_of machine.now) tile.now) }
{
    let motion = Motion {
        turn: tile.turn,
        shift: Point { c: tile.shift },
    };
    let mut corners = ArrayVec::new();
    machine.put_corners(tile.kind, &motion, &mut corners);
    let order = machine.checked().order();
    let corners = corners.as_slice();
    match beside(order, window, corners) {
        Standing::Beyond => false,
        Standing::Within | Standing::Across => meets(order, window, corners),
    }
}

/// Puts 1 for each tile that meets a window, and 0 for each other one.
fn put_flags(machine: &Machine, tiles: &[PlainTile], window: &Window, flags: &mut [u8])
    requires are_tiles { All (IsPlainTile (tiling_of machine.now)) tiles.now }
    requires window_fits { IsWindow window.now }
    requires same_length { length flags.old ≡ length tiles.now }
    ensures { (i : ℕ) → i < length tiles.now → ShowsMeeting (tiling_of machine.now) window.now
        (plain_tile_at tiles.now i) (get_or flags.new i 0) }
{
    for i in 0..tiles.len() {
        flags[i] = u8::from(tile_meets(machine, &tiles[i], window));
    }
}

/// Puts 1 for each tile of an array that meets a window, and 0 for each other one.
#[unsafe(no_mangle)]
pub extern "C" fn tiling_meets_all(
    t: SharedMachine,
    tiles: &[PlainTile],
    window: &PlainWindow,
    flags: &mut [u8],
) -> u8
    ensures shown { ShowsWhichMeet (tiling_of t.rule) window.now tiles.now flags.old flags.new result }
    ensures unchanged { ¬ result ≡ ok → flags.new ≡ flags.old }
{
    let machine = t.get();
    match window_asked(machine, tiles, window, flags) {
        Some(window) => {
            put_flags(machine, tiles, &window, flags);
            OK
        }
        None => BAD_WORDS,
    }
}
