//! Whether a listing is the list of a window.
ghost use Rattle.std.specs.Prelude.{◌≡◌, ◌⊎◌, ◌↔◌, ◌<◌, ◌≤◌, ℕ, length, Ok, Err, IfOk, IfErr, OnOk};
ghost use Rattle.rule_model.specs.Tiling.{tiling_of, children};
ghost use Rattle.theory_walks.specs.Frames.{IsFrameOf, GrowsTo};
ghost use Rattle.listing_text.specs.Limits.{most_lines};
ghost use Rattle.listing_text.specs.Lines.{lines_in};
ghost use Rattle.listing_text.specs.declared.listing_fault.ListingFault.{ListingFault as TextFault};
ghost use Rattle.listing_text.specs.Listing.{listing_in};
ghost use Rattle.window_cover.specs.Windows.{IsWindow};
ghost use Rattle.list_verify.specs.declared.list_fault.ListFault.{ListFault as Fault};
ghost use Rattle.list_verify.specs.declared.list_fault.ListFault.TheVariants as faults;
ghost use Rattle.list_verify.specs.Depth.{IsListedDepth, IsEnoughListed};
ghost use Rattle.list_verify.specs.Listing.{IsVerified};
ghost use Rattle.list_verify.specs.Verdict.{HasCause, IsTold, IsOfWalk, LacksTiles};
ghost use Rattle.list_verify.specs.Verdict.{IsVerdict};
ghost use Rattle.list_verify.specs.Verifying.{IsReady};

use crate::laws::one_verdict_law;
use crate::line_index::multiplier_of;
use crate::list_fault::ListFault;
use crate::verifier::Verifier;
use lazy_walk::frame::Frame;
use listing_text::reading::read_listing;
use plane_geom::window::Window;
use std::alloc::Global;
use tile_place::machine::Machine;

/// Checks whether a list from another program has exactly the tiles that meet a window, and returns its
/// number of lines. The list is right if its lines, lifted to the depth of the frame, are those tiles, each
/// exactly once and with its motion.
///
/// - `frame` has the base and the seed. It grows at most to the least depth that is enough for the window and
///   for the listed addresses, or to 64 if none is. It is unchanged if the text has a fault.
/// - `window` has its centre in the base's frame.
/// - `listing` has a line for each tile, in any order. A line has its kind, its turn, its shift as four
///   coefficients in the base's frame, and its address, with single blanks between. The address may have any
///   depth.
/// - `alloc` provides all memory, about 300 bytes a line.
///
/// A list that is byte for byte the text of the window's tiles, in their order, is accepted at once. Any
/// other list is walked through line by line, from the tile at the centre across edges that meet the window.
///
/// # Errors
///
/// 1. In the text: `TooLong`; then, for the first line with one of them, `BadLine`, `Address` or `BadKind`.
/// 2. In the addresses, each for the first line that has it: `NotOfFrame`, then `Double`.
/// 3. On the walk: `Missing`, `WrongPlace`, `DepthLimit` or `CoordLimit`. If several apply, one of them
///    comes; which one is left open.
/// 4. After a walk without an error: `Stray`, for the first line whose tile does not meet the window.
///
/// `NoMemory` means that memory ran out. `TooLong` takes precedence over it.
pub fn verify(
    alloc: Global,
    machine: &Machine,
    frame: &mut Frame,
    window: &Window,
    listing: &[u8],
) -> Result<u32, ListFault>
    requires frame { IsFrameOf (tiling_of machine.now) frame.old }
    requires window_fits { IsWindow window.now }

    ensures frame { GrowsTo (tiling_of machine.now) frame.old frame.new }

    // At Ok the frame has the greater of its own depth and the greatest depth of a line. It is never deeper
    // than is enough for the window and the lines. A text with a fault leaves it as it is.
    ensures depth { OnOk result (IsListedDepth (tiling_of machine.now) frame.old listing.now
        (length frame.new.digits)) }
    ensures not_beyond { (n : ℕ) → IsEnoughListed (tiling_of machine.now) frame.old window.now listing.now n
        → length frame.new.digits ≤ n }
    ensures unread { (fault : TextFault) → listing_in (children (tiling_of machine.now)) listing.now ≡ Err
        fault → frame.new ≡ frame.old }

    // The call succeeds if and only if the list is right and no value is refused, unless memory runs out.
    ensures right { IfOk result (λ n. IsVerified (tiling_of machine.now) frame.old window.now listing.now n) }
    ensures complete { (n : ℕ) → IsVerified (tiling_of machine.now) frame.old window.now listing.now n
        → (result ≡ Ok n) ⊎ (result ≡ Err faults.NoMemory) }

    // Each error comes only for its cause. If a cause holds, its error comes, unless memory runs out. For the
    // errors of the walk this holds of the four together.
    ensures cause { IfErr result (λ fault. HasCause (tiling_of machine.now) frame.old frame.new window.now
        listing.now fault) }
    ensures told { (fault : Fault) → IsTold fault
        → HasCause (tiling_of machine.now) frame.old frame.new window.now listing.now fault
        → (result ≡ Err fault) ⊎ (result ≡ Err faults.NoMemory) }
    ensures lacking { LacksTiles (tiling_of machine.now) frame.old window.now listing.now
        → (result ≡ Err faults.NoMemory) ⊎ (fault : Fault) × (result ≡ Err fault) × IsOfWalk fault }

    // A list with too many lines is refused even if memory runs out.
    ensures too_long { (result ≡ Err faults.TooLong) ↔ (most_lines < length (lines_in listing.now)) }
{
    one_verdict_law(machine.checked().order());
    let verifier = Verifier {
        alloc,
        machine,
        window,
    };
    if let Some(count) = verifier.as_written(frame, listing) {
        return Ok(count);
    }
    verifier.by_walk(frame, listing)
}

impl<'a> Verifier<'a> {
    /// Decides a listing by a walk through its lines, in any order.
    fn by_walk(&self, frame: &mut Frame, listing: &[u8]) -> Result<u32, ListFault>
        requires ready { IsReady self.now frame.old }
        ensures { IsVerdict (tiling_of self.now.machine.now) frame.old frame.new self.now.window.now
            listing.now result }
    {
        let mut entries = match read_listing(self.alloc, self.machine.checked().uses(), listing) {
            Ok(entries) => entries,
            Err(fault) => return Err(fault.into()),
        };
        self.verdict_of(frame, entries.as_mut_slice(), multiplier_of(listing))
    }
}
