//! Lines lifted to one depth.
ghost use Rattle.std.specs.Prelude.{◌≡◌, ◌↔◌, ◌<◌, ◌≤◌, ◌^◌, ℕ, List, length, IsTrue, IfErr, OnOk};
ghost use Rattle.std.specs.List.{All};
ghost use Rattle.theory_addresses.specs.Address.{depth, Fits};
ghost use Rattle.theory_frames.specs.Frame.{IsTileOf};
ghost use Rattle.theory_walks.specs.Frames.{whole};
ghost use Rattle.rule_model.specs.Tiling.{Tiling, tiling_of, children};
ghost use Rattle.tile_shape.specs.Views.{address_of};
ghost use Rattle.list_verify.specs.FoundLines.{entries_of};
ghost use Rattle.list_verify.specs.Lifted.{deepest_entry, CanAllBeLifted, IsGrownToEntries, AreLifted, IsStranger};

use crate::list_fault::ListFault;
use lazy_walk::frame::Frame;
use listing_text::entry::Entry;
use tile_place::machine::Machine;
use tile_shape::address::Address;

/// Returns the greatest depth of the lines' addresses, or `least` if that is greater.
fn deepest(least: u8, lines: &[Entry]) -> u8
    requires at_most_64 { least ≤ 64 }
    ensures deepest { (t : Tiling) → result ≡ deepest_entry t least (entries_of lines.now) }
    ensures at_most_64 { result ≤ 64 }
{
    let mut depth = least;
    for line in lines {
        depth = depth.max(line.address.depth());
    }
    depth
}

/// Returns true if an address, no deeper than a frame, is that of one of its tiles. It must have the kind of
/// the base's ancestor at the level of its depth.
fn is_of_frame(frame: &Frame, address: &Address) -> bool
    requires no_deeper { depth (address_of address.now) ≤ length frame.now.digits }
    ensures { (kinds : List (List ℕ)) → Fits kinds (address_of address.now) → IsTrue result
        ↔ IsTileOf kinds (whole frame.now) (address_of address.now) }
{
    let depth = address.depth();
    address.kind_at(depth) == frame.kind_at(depth)
}

/// Lifts each line's address, in place, to the depth of a frame that is no shallower than any of them. Err
/// has the first line that is not of the frame.
fn lift_each(frame: &Frame, lines: &mut [Entry]) -> Result<(), ListFault>
    requires few { length lines.old < 2 ^ 31 }
    requires no_deeper { All (λ line. depth (address_of line.address) ≤ length frame.now.digits) lines.old }
    ensures lifted { (kinds : List (List ℕ)) → All (λ line. Fits kinds (address_of line.address)) lines.old
        → OnOk result (AreLifted kinds (whole frame.now) (entries_of lines.old) (entries_of lines.new)) }
    ensures fault { (kinds : List (List ℕ)) → All (λ line. Fits kinds (address_of line.address)) lines.old
        → IfErr result (IsStranger kinds (whole frame.now) (entries_of lines.old)) }
{
    for line in 0..lines.len() {
        if !is_of_frame(frame, &lines[line].address) {
            return Err(ListFault::NotOfFrame {
                line: line as u32 + 1,
            });
        }
        frame.raise(&mut lines[line].address);
    }
    Ok(())
}

/// Grows the frame to the greatest depth of the lines' addresses, and lifts each of them to its depth. Err
/// has the first line that is not of the frame.
pub(crate) fn lift_lines(
    machine: &Machine,
    frame: &mut Frame,
    lines: &mut [Entry],
) -> Result<(), ListFault>
    requires lines { CanAllBeLifted (tiling_of machine.now) frame.old lines.old }
    ensures grown { IsGrownToEntries (tiling_of machine.now) frame.old frame.new (entries_of lines.old) }
    ensures lifted { OnOk result (AreLifted (children (tiling_of machine.now)) (whole frame.new)
        (entries_of lines.old) (entries_of lines.new)) }
    ensures fault { IfErr result (IsStranger (children (tiling_of machine.now)) (whole frame.new)
        (entries_of lines.old)) }
{
    let depth = deepest(frame.depth(), lines);
    frame.grow_to(machine, depth);
    lift_each(frame, lines)
}
