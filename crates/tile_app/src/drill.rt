//! The command `drill`: totals over pseudorandom windows, which the seed determines.
ghost use Rattle.std.specs.Prelude.{◌≡◌, ◌+◌, ◌*◌, ◌<◌, ◌≤◌, ◌^◌, IfOk, IfErr, OnOk, string_bytes};
ghost use Rattle.cyclo_points.specs.Point.{Within, IsWithin};
ghost use Rattle.theory_walks.specs.Frames.{IsFrameOf};
ghost use Rattle.rule_model.specs.Tiling.{tiling_of};
ghost use Rattle.seeded_growth.specs.Words.{word};
ghost use Rattle.theory_windows.specs.Limits.{most_tiles};
ghost use Rattle.window_cover.specs.Windows.{IsWindow};
ghost use Rattle.tile_app.specs.Drill.{coefficient_of, extent_of, centre_from, window_from, fresh_frame, Adds, IsSummary, summary_text, PrintsDrill};

use crate::summary::Summary;
use call_notes::status::Status;
use cyclo_points::coordinates::reduce;
use cyclo_points::order::Order;
use cyclo_points::point::Point;
use lazy_walk::frame::Frame;
use plane_geom::window::Window;
use rule_model::checked::Checked;
use seeded_growth::growth::Growth;
use std::alloc::{AllocError, Global};
use tile_place::machine::Machine;
use tile_shape::address::Address;
use tile_shape::no_memory::NoMemory;
use window_cover::cover_fault::CoverFault;
use window_cover::find_tiles::find_tiles;

/// Returns the next output of the generator as a coefficient of a centre, at most 32 in absolute value.
fn next_coefficient(growth: &mut Growth) -> i64
    requires few_taken { growth.old.taken < 2 ^ 32 }
    ensures number { result ≡ coefficient_of (word growth.old.start growth.old.taken) }
    ensures within { Within 32 result }
    ensures one_word { growth.new.taken ≡ growth.old.taken + 1 }
    ensures same_start { growth.new.start ≡ growth.old.start }
{
    i64::from(growth.next_word() % 64) - 32
}

/// Returns the next output of the generator as a half-width or half-height, from 1 to 64.
fn next_extent(growth: &mut Growth) -> u16
    requires few_taken { growth.old.taken < 2 ^ 32 }
    ensures number { result ≡ extent_of (word growth.old.start growth.old.taken) }
    ensures some { 1 ≤ result }
    ensures at_most_64 { result ≤ 64 }
    ensures one_word { growth.new.taken ≡ growth.old.taken + 1 }
    ensures same_start { growth.new.start ≡ growth.old.start }
{
    1 + (growth.next_word() % 64) as u16
}

/// Returns the next four outputs of the generator as a centre, before it is reduced to the order.
fn next_centre(growth: &mut Growth) -> Point
    requires few_taken { growth.old.taken + 4 ≤ 2 ^ 32 }
    ensures centre { result ≡ centre_from growth.old.start growth.old.taken }
    ensures within { IsWithin 32 result }
    ensures four_words { growth.new.taken ≡ growth.old.taken + 4 }
    ensures same_start { growth.new.start ≡ growth.old.start }
{
    let a0 = next_coefficient(growth);
    let a1 = next_coefficient(growth);
    let a2 = next_coefficient(growth);
    let a3 = next_coefficient(growth);
    Point {
        c: [a0, a1, a2, a3],
    }
}

/// Returns the next six outputs of the generator as a window.
fn next_window(order: Order, growth: &mut Growth) -> Window
    requires few_taken { growth.old.taken + 6 ≤ 2 ^ 32 }
    ensures window { result ≡ window_from order growth.old.start growth.old.taken }
    ensures fits { IsWindow result }
    ensures six_words { growth.new.taken ≡ growth.old.taken + 6 }
    ensures same_start { growth.new.start ≡ growth.old.start }
{
    let centre = next_centre(growth);
    let width = next_extent(growth);
    let height = next_extent(growth);
    Window {
        centre: reduce(order, &centre),
        w: width,
        h: height,
    }
}

/// Returns the frame of the base `0:`, before it grows.
fn fresh_frame(machine: &Machine, start: u64) -> Frame
    ensures fresh { result ≡ fresh_frame start }
    ensures is_frame { IsFrameOf (tiling_of machine.now) result }
{
    let _some_kind = machine.checked();
    Frame::new(Address::new(0), start)
}

/// Adds a window to the totals: its number of tiles and the depth of its frame, or its refusal. The frame
/// grows as needed.
fn add_window(
    alloc: Global,
    machine: &Machine,
    frame: &mut Frame,
    window: &Window,
    summary: &mut Summary,
) -> Result<(), NoMemory>
    requires frame { IsFrameOf (tiling_of machine.now) frame.old }
    requires window_fits { IsWindow window.now }
    requires few_tiles { summary.old.tiles + most_tiles < 2 ^ 32 }
    requires few_refused { summary.old.refused < 255 }
    ensures adds { OnOk result (Adds (tiling_of machine.now) frame.old window.now summary.old summary.new) }
    ensures most_tiles_more { summary.new.tiles ≤ summary.old.tiles + most_tiles }
    ensures one_refused_more { summary.new.refused ≤ summary.old.refused + 1 }
{
    match find_tiles(alloc, machine, frame, window) {
        Ok(tiles) => {
            let count = tiles.len() as u32;
            summary.add(count, frame.depth());
        }
        Err(fault) => match fault {
            CoverFault::NoMemory => return Err(NoMemory),
            _ => summary.add_refused(),
        },
    }
    Ok(())
}

/// Returns the totals over the first `count` windows of a seed.
fn summed(alloc: Global, machine: &Machine, start: u64, count: u8) -> Result<Summary, NoMemory>
    requires at_most_200 { count ≤ 200 }
    ensures { IfOk result (λ summary. IsSummary (tiling_of machine.now) start count summary) }
{
    let order = machine.checked().order();
    let mut summary = Summary::new();
    let mut growth = Growth::new(start);
    for _number in 0..count {
        let window = next_window(order, &mut growth);
        let mut frame = fresh_frame(machine, start);
        add_window(alloc, machine, &mut frame, &window, &mut summary)?;
    }
    Ok(summary)
}

/// Returns the five lines of the totals over this number of windows.
fn summary_text(alloc: Global, count: u8, summary: &Summary) -> Result<String, AllocError>
    ensures { IfOk result (λ text. string_bytes text ≡ summary_text count summary.now) }
{
    let Summary {
        tiles,
        largest,
        depth,
        refused,
    } = summary;
    format!(in alloc;
        "windows {count}\ntiles {tiles}\nlargest {largest}\ndepth {depth}\nrefused {refused}\n"
    )
}

/// Returns what `drill` prints for this number of windows of a seed. Fails only if memory runs out.
pub fn drill_text(alloc: Global, checked: Checked, count: u8, seed: u64) -> Result<Vec<u8>, Status>
    requires at_most_200 { count ≤ 200 }
    ensures printed { IfOk result (λ text. PrintsDrill (tiling_of checked) seed count text.items) }
    ensures refused { IfErr result (λ status. status ≡ Status.NoMemory) }
{
    let machine = Machine::new(alloc, checked)?;
    let summary = summed(alloc, &machine, seed, count)?;
    Ok(summary_text(alloc, count, &summary)?.into_bytes())
}
