//! What is found of entries by a walk through them.
ghost use Rattle.std.specs.Prelude.{◌≡◌, ◌<◌, ◌≤◌, ◌^◌, length, Ok};
ghost use Rattle.std.specs.List.{All};
ghost use Rattle.theory_addresses.specs.Address.{Fits};
ghost use Rattle.rule_model.specs.Tiling.{tiling_of, children};
ghost use Rattle.theory_walks.specs.Frames.{IsFrameOf};
ghost use Rattle.tile_shape.specs.Views.{address_of};
ghost use Rattle.listing_text.specs.Limits.{most_lines};
ghost use Rattle.window_cover.specs.Windows.{IsWindow};
ghost use Rattle.list_verify.specs.FoundLines.{entries_of};
ghost use Rattle.list_verify.specs.Lifted.{CanAllBeLifted};
ghost use Rattle.list_verify.specs.LineIndex.{IsMultiplier};
ghost use Rattle.list_verify.specs.Verdict.{IsVerdictOn, IsWholeVerdict};

use crate::laws::one_verdict_law;
use crate::lifted_lines::lift_lines;
use crate::line_index::{LineIndex, multiplier_of_entries};
use crate::list_fault::ListFault;
use crate::list_laws::walk_laws;
use crate::verifier::Verifier;
use crate::walk::Walk;
use lazy_walk::frame::Frame;
use listing_text::entry::Entry;
use plane_geom::window::Window;
use std::alloc::Global;
use tile_place::machine::Machine;

/// Checks whether entries are exactly the tiles that meet a window, in any order, and returns how many there
/// are. It is [`verify`](crate::verify::verify) for entries that are read already.
///
/// - `entries` are at most 200,000. Each has an address of any depth that fits the rule, and a motion in the
///   base's frame.
/// - `frame`, `window` and `alloc` are as there.
///
/// # Errors
///
/// As there, without those of a text. The line of a fault is the number of its entry, from 1.
pub fn verify_entries(
    alloc: Global,
    machine: &Machine,
    frame: &mut Frame,
    window: &Window,
    entries: Vec<Entry>,
) -> Result<u32, ListFault>
    requires frame { IsFrameOf (tiling_of machine.now) frame.old }
    requires window_fits { IsWindow window.now }
    requires fit { All (λ entry. Fits (children (tiling_of machine.now)) (address_of entry.address))
        entries.items }
    requires few { length entries.items ≤ most_lines }
    ensures { IsWholeVerdict (tiling_of machine.now) frame.old frame.new window.now
        (Ok (entries_of entries.items)) result }
{
    one_verdict_law(machine.checked().order());
    let mut entries = entries;
    let multiplier = multiplier_of_entries(entries.as_slice());
    let verifier = Verifier {
        alloc,
        machine,
        window,
    };
    verifier.verdict_of(frame, entries.as_mut_slice(), multiplier)
}

impl<'a> Verifier<'a> {
    /// Decides entries by a walk through them, and lifts their addresses in place. The multiplier decides in
    /// which bucket an entry is looked for.
    pub(crate) fn verdict_of(
        &self,
        frame: &mut Frame,
        lines: &mut [Entry],
        multiplier: u64,
    ) -> Result<u32, ListFault>
        requires lines { CanAllBeLifted (tiling_of self.now.machine.now) frame.old lines.old }
        requires window_fits { IsWindow self.now.window.now }
        requires below { IsMultiplier multiplier }
        ensures { IsVerdictOn (tiling_of self.now.machine.now) frame.old frame.new self.now.window.now
            (Ok (entries_of lines.old)) result }
    {
        walk_laws(self.machine);
        let count = lines.len() as u32;
        match lift_lines(self.machine, frame, lines) {
            Ok(()) => {}
            Err(fault) => return Err(fault),
        }
        let index = match LineIndex::new(self.alloc, multiplier, lines) {
            Ok(index) => index,
            Err(fault) => return Err(fault),
        };
        let walk = Walk {
            machine: self.machine,
            window: self.window,
            lines,
            index: &index,
        };
        match walk.run(self.alloc, frame) {
            Ok(()) => Ok(count),
            Err(fault) => Err(fault),
        }
    }
}
