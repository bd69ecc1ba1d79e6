//! The command `verify`: checks a list of tiles from another program.
ghost use Rattle.std.specs.Prelude.{◌≡◌, ◌≤◌, length, IfOk, IfErr, IsErrOf, string_bytes};
ghost use Rattle.call_words.specs.Views.{IsWindowAsked, window_of};
ghost use Rattle.theory_walks.specs.Frames.{IsFrameOf};
ghost use Rattle.rule_model.specs.Tiling.{tiling_of};
ghost use Rattle.tile_io.specs.Causes.{Rose};
ghost use Rattle.tile_app.specs.BaseFrame.{IsBegun};
ghost use Rattle.call_notes.specs.Status.{OrNoMemory};
ghost use Rattle.tile_app.specs.Windows.{window_asked};
ghost use Rattle.tile_app.specs.Verify.{right_line, PrintsVerify, VerifyRefuses, BuiltinVerdictLaw};
ghost use Rattle.tile_app.specs.Reading.{IsListingPrinted, IsListingRefused};
ghost use Rattle.window_cover.specs.Windows.{IsWindow};

use crate::file::file_read;
use crate::file_kind::FileKind;
use crate::window::window_in;
use builtin_rules::laws::accepted_names_law;
use call_notes::status::Status;
use call_words::window_words::WindowWords;
use cyclo_points::order::Order;
use lazy_walk::frame::Frame;
use list_verify::laws::one_verdict_law;
use list_verify::verify::verify;
use plane_geom::window::Window;
use std::alloc::{AllocError, Global};
use tile_io::source::Source;
use tile_place::machine::Machine;

/// Returns what is printed for a right list.
fn right_line(alloc: Global, lines: u32) -> Result<String, AllocError>
    ensures { IfOk result (λ text. string_bytes text ≡ right_line lines) }
{
    format!(in alloc; "right {lines}\n")
}

/// Returns what `verify` prints for a list of the tiles of a window in the frame of a base, or its refusal.
fn verified(
    alloc: Global,
    machine: &Machine,
    frame: &mut Frame,
    window: &Window,
    listing: &[u8],
) -> Result<String, Status>
    requires frame { IsFrameOf (tiling_of machine.now) frame.old }
    requires begun { IsBegun frame.old }
    requires window_fits { IsWindow window.now }
    ensures printed { IfOk result (λ text. PrintsVerify
        (tiling_of machine.now) frame.old window.now listing.now (string_bytes text)) }
    ensures refused { IfErr result (OrNoMemory (VerifyRefuses
        (tiling_of machine.now) frame.old window.now listing.now)) }
{
    let lines = verify(alloc, machine, frame, window, listing)?;
    Ok(right_line(alloc, lines)?)
}

/// Returns what `verify` prints for the list that is read, of a window in the frame of a base, or its
/// refusal.
pub fn verify_text<R: Source>(
    alloc: Global,
    machine: &Machine,
    frame: &mut Frame,
    asked: &WindowWords,
    source: &mut R,
) -> Result<Vec<u8>, Status>
    requires frame { IsFrameOf (tiling_of machine.now) frame.old }
    requires begun { IsBegun frame.old }
    requires asked { IsWindowAsked asked.now }
    ensures printed { IfOk result (λ text. IsListingPrinted (tiling_of machine.now) frame.old
        (window_asked machine.now.order (window_of asked.now)) (R.left source.old) (R.left source.new)
        text.items) }
    ensures refused { IfErr result (IsListingRefused (tiling_of machine.now) frame.old
        (window_asked machine.now.order (window_of asked.now)) (R.left source.old) (R.left source.new)) }
    ensures read_fault { IsErrOf result Status.ReadFault → Rose (R.faults source.old) (R.faults source.new) }
{
    let window = window_in(machine.checked().order(), asked);
    let listing = file_read(alloc, FileKind::Listing, source)?;
    Ok(verified(alloc, machine, frame, &window, listing.as_slice())?.into_bytes())
}

/// The law that a list has only one verdict, for a window in a frame of a built-in rule's tiling.
pub fn builtin_verdict_law()
    ensures { BuiltinVerdictLaw }
{
    accepted_names_law();
    one_verdict_law(Order::Four);
    one_verdict_law(Order::Six);
    one_verdict_law(Order::Eight);
    one_verdict_law(Order::Ten);
}
