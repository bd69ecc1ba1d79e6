//! The top call: all that the program does.
ghost use Rattle.std.specs.Prelude.{◌≡◌, ◌⊎◌, ◌<◌, ℕ, List, true, false, map, Ok};
ghost use Rattle.call_words.specs.declared.rule_choice.RuleChoice.{RuleChoice};
ghost use Rattle.call_words.specs.Request.{WindowAsked};
ghost use Rattle.call_words.specs.Request.{request_in};
ghost use Rattle.call_words.specs.Request.Request.{Neighbour, Draw};
ghost use Rattle.call_words.specs.Words.{texts};
ghost use Rattle.layer_api.specs.declared.format.Format.{Format};
ghost use Rattle.rule_model.specs.Tiling.{Tiling};
ghost use Rattle.tile_io.specs.Causes.{Rose};
ghost use Rattle.tile_io.specs.Taken.{Takes, TakesProperPrefix};
ghost use Rattle.call_notes.specs.declared.status.Status.{Status};
ghost use Rattle.tile_app.specs.Answer.{Prints, CanBeAnswered, IsBeyondLimits};
ghost use Rattle.tile_app.specs.Asked.{OfCall, IsAsked};
ghost use Rattle.tile_app.specs.Causes.{Causes, IsNoLimit, IsRefused};
ghost use Rattle.tile_app.specs.Headline.{TellsOnlyNeighbour, WritesExactlyTheWindow, WritesTheWholeTiles};
ghost use Rattle.call_notes.specs.Notes.{note_of, IsNoted};
ghost use Rattle.tile_app.specs.BaseFrame.{frame_of};
ghost use Rattle.tile_app.specs.Call.{Call, Names, reads_file};
ghost use Rattle.call_notes.specs.Status.{IsCutShort, IsLimit, IsRefusal};
ghost use Rattle.tile_app.specs.Tile.{OfTile};
ghost use Rattle.tile_app.specs.Windows.{window_asked};

use crate::answer::answer_text;
use crate::verify::builtin_verdict_law;
use crate::whole_answer::write_answer;
use addr_calc::laws::one_answer_law;
use call_notes::note::write_note;
use call_notes::status::Status;
use dissect_check::laws::accepted_children_law;
use edge_tables::steps::Steps;
use layer_api::layer::Layer;
use std::alloc::Global;
use std::marker::Brand;
use std::sync::ledger::{Blank, Ledger};
use tile_io::failed::Failed;
use tile_io::sink::Sink;
use tile_io::source::Source;
use tile_shape::laws::{short_numbers_law, text_law};

/// Writes the answer to the call, which is complete in memory before its first byte is written. It counts the
/// look-ups of crossings on a counter that nobody reads.
fn answer<R: Source, W: Sink, D: Layer, L: Ledger>(
    alloc: Global,
    words: &[String],
    source: &mut R,
    sink: &mut W,
    layers: &mut [D],
    blank: Blank,
) -> Status
    requires name { blank.name ≡ L.name }
    requires parts { blank.parts ≡ L.parts }
    requires some { 0 < blank.parts }
    ensures done { result ≡ Status.Done → OfCall (texts words.now) (map D.form layers.old)
        (R.left source.old) (R.left source.new)
        (λ c. (text : List ℕ) × Prints c text × Takes (W.taken sink.old) (W.taken sink.new) text) }
    ensures write_fault { result ≡ Status.WriteFault → Rose (W.faults sink.old) (W.faults sink.new) }
    ensures part { result ≡ Status.WriteFault
        → OfCall (texts words.now) (map D.form layers.old) (R.left source.old) (R.left source.new)
        (λ c. (text : List ℕ) × Prints c text × TakesProperPrefix (W.taken sink.old) (W.taken sink.new)
        text) }
    ensures refused { IsRefusal result → IsRefused (texts words.now) (map D.form layers.old)
        (R.left source.old) (R.left source.new) result }
    ensures read_fault { result ≡ Status.ReadFault → Rose (R.faults source.old) (R.faults source.new) }
    ensures nothing_written { IsRefusal result → sink.new ≡ sink.old }
    ensures untouched { reads_file (texts words.now) (map D.form layers.old) ≡ false
        → source.new ≡ source.old }
{
    let mut steps = Steps::<L>::new(blank);
    let answer = match answer_text(alloc, words, source, layers, &mut steps) {
        Ok(answer) => answer,
        Err(status) => return status,
    };
    match write_answer(sink, layers, &answer) {
        Ok(()) => Status::Done,
        Err(Failed) => Status::WriteFault,
    }
}

/// Runs one call of the program: reads the arguments, reads the source if they ask for it, and writes the
/// answer to `sink`. The answer is complete in memory before its first byte is written.
///
/// - `words` are the arguments after the program's name: a command, then `key=value` in any order.
/// - `source` holds a rule file (for `rule=-`), a script (for `calc`), or a list of tiles (for `verify`). It
///   is read to its end, but only if the arguments are right and each format they name has a layer. `verify`
///   must also have a valid address. Otherwise it is left untouched. A rule file or script may have 1,048,576
///   bytes, and a list 67,108,864.
/// - `sink` takes the answer.
/// - `notes` takes one line for a refusal. A failure of `notes` does not change the status.
/// - `layers` are what `draw` writes its texts with. If several layers have a format, the first is used. All
///   of them are dropped before the call returns.
/// - `alloc` provides all memory.
///
/// # Refusals
///
/// Tests run in this order, and the first that fails decides:
///
/// 1. the arguments: `BadWords`
/// 2. the layers: `NoLayer`
/// 3. the rule and its file: `ReadFault`, `RuleTooLong`, `RuleRefused`
/// 4. the address: `BadAddress`
/// 5. a script or a list of tiles: `ReadFault`, `BadScript`, `BadListing`
/// 6. what the command asks for, in the table below
///
/// | Command | Refusals |
/// |---|---|
/// | `place` | `CoordLimit` |
/// | `neighbour` | `NoEdge`, `Outside` |
/// | `walk` | `NoEdge`, `DepthLimit` |
/// | `draw` | `DepthLimit`, `CoordLimit`, `TooManyTiles` |
/// | `star` | `NoVertex`, `DepthLimit`, `StarTooBig` |
/// | `verify` | `BadListing`, `DepthLimit`, `CoordLimit` |
/// | `calc` | `BadScript` |
///
/// `NoMemory` may replace any status except `BadWords` and `NoLayer`, and `WriteFault` may replace `Done`.
/// [`Status`] says what each refusal reports.
///
/// The clauses speak of the call: the arguments, the formats of the layers, and the file that was read.
pub fn run<R: Source, W: Sink, N: Sink>(
    alloc: Global,
    words: &Vec<String>,
    source: &mut R,
    sink: &mut W,
    notes: &mut N,
    mut layers: Vec<Box<dyn Layer>>,
) -> Status
    // The headline. On `Done`, `neighbour` printed the only tile across the edge, with both tiles placed in
    // their common supertile, and the return edge leads back.
    ensures only_neighbour { (rule : RuleChoice) (addr : List ℕ) (edge : ℕ)
        → result ≡ Status.Done → request_in (texts words.now.items) ≡ Ok (Neighbour rule addr edge)
        → OfCall (texts words.now.items) (map (λ d. form d) layers.items) (R.left source.old)
        (R.left source.new)
        (λ c. (t : Tiling) × (text : List ℕ) × Names c (Neighbour rule addr edge) t
        × OfTile t addr (λ a. TellsOnlyNeighbour t a edge text)
        × Takes (W.taken sink.old) (W.taken sink.new) text) }

    // On `Done`, `draw` wrote exactly the tiles that meet the window. Each comes once; they are disjoint and
    // cover the window. The supertile has the least depth that is enough.
    ensures exactly_the_window { (rule : RuleChoice) (addr : List ℕ) (seed : ℕ) (window : WindowAsked)
        (formats : List Format)
        → result ≡ Status.Done → request_in (texts words.now.items) ≡ Ok
        (Draw rule addr seed window formats false)
        → OfCall (texts words.now.items) (map (λ d. form d) layers.items) (R.left source.old)
        (R.left source.new)
        (λ c. (t : Tiling) × (text : List ℕ) × Names c (Draw rule addr seed window formats false) t
        × OfTile t addr (λ a. WritesExactlyTheWindow t (frame_of a seed) (window_asked t.order window)
        formats text)
        × Takes (W.taken sink.old) (W.taken sink.new) text) }

    // With `glue=yes` it wrote the whole tiles of these, which are disjoint and cover the window, too.
    ensures whole_tiles { (rule : RuleChoice) (addr : List ℕ) (seed : ℕ) (window : WindowAsked)
        (formats : List Format)
        → result ≡ Status.Done → request_in (texts words.now.items) ≡ Ok
        (Draw rule addr seed window formats true)
        → OfCall (texts words.now.items) (map (λ d. form d) layers.items) (R.left source.old)
        (R.left source.new)
        (λ c. (t : Tiling) × (text : List ℕ) × Names c (Draw rule addr seed window formats true) t
        × OfTile t addr (λ a. WritesTheWholeTiles t (frame_of a seed) (window_asked t.order window)
        formats text)
        × Takes (W.taken sink.old) (W.taken sink.new) text) }

    // On `Done` the sink took exactly the text that the command prints for this request:
    // - `place`: the kind, and the motion by which the tile lies in its supertile;
    // - `neighbour`: the only tile across the edge, and the edge that leads back;
    // - `walk`: the tiles along the path;
    // - `draw`: the layers' texts over exactly the tiles that meet the window. The tiles are disjoint and
    //   cover the window. With `glue=yes` the same holds for whole tiles;
    // - `star`: exactly the tiles that have the vertex, each exactly once, counterclockwise;
    // - `check`: that the rule is accepted;
    // - `verify`: the number of lines of a list that has exactly the tiles that meet the window, each exactly
    //   once and with its motion;
    // - `calc`: what the script prints;
    // - `drill`: the totals over its windows.
    //
    // A file that was read was read to its end.
    ensures done { result ≡ Status.Done
        → OfCall (texts words.now.items) (map (λ d. form d) layers.items) (R.left source.old)
        (R.left source.new)
        (λ c. (text : List ℕ) × Prints c text × Takes (W.taken sink.old) (W.taken sink.new) text) }

    // A refusal comes only if its cause, in the table `Causes`, holds. Conversely, if a cause holds, its
    // refusal comes, unless the source fails or memory runs out. Several limits of a window or vertex may be
    // passed at once, and several tiles of a list may be missing or misplaced. Then one of those refusals
    // comes; which one is left open.
    ensures refused { IsRefusal result → IsRefused (texts words.now.items) (map (λ d. form d) layers.items)
        (R.left source.old) (R.left source.new) result }
    ensures refused_when { (c : Call) (status : Status)
        → IsAsked (texts words.now.items) (map (λ d. form d) layers.items) (R.left source.old) c
        → Causes c status → IsNoLimit c status → (result ≡ status) ⊎ IsCutShort result }
    ensures beyond_limits { (c : Call) → IsAsked (texts words.now.items) (map (λ d. form d) layers.items)
        (R.left source.old) c
        → IsBeyondLimits c → IsLimit result ⊎ IsCutShort result }

    // If a source or a sink is to blame, it failed. What was written is then a part of the text.
    ensures read_fault { result ≡ Status.ReadFault → Rose (R.faults source.old) (R.faults source.new) }
    ensures write_fault { result ≡ Status.WriteFault → Rose (W.faults sink.old) (W.faults sink.new) }
    ensures part { result ≡ Status.WriteFault
        → OfCall (texts words.now.items) (map (λ d. form d) layers.items) (R.left source.old)
        (R.left source.new)
        (λ c. (text : List ℕ) × Prints c text × TakesProperPrefix (W.taken sink.old) (W.taken sink.new)
        text) }

    // What stays untouched, and when the call succeeds.
    ensures nothing_written { IsRefusal result → sink.new ≡ sink.old }
    ensures source_untouched { reads_file (texts words.now.items) (map (λ d. form d) layers.items) ≡ false
        → source.new ≡ source.old }
    ensures complete { (c : Call) → IsAsked (texts words.now.items) (map (λ d. form d) layers.items)
        (R.left source.old) c → CanBeAnswered c
        → ¬ Rose (W.faults sink.old) (W.faults sink.new) → ¬ Rose (R.faults source.old) (R.faults source.new)
        → (result ≡ Status.Done) ⊎ (result ≡ Status.NoMemory) }

    // The notes take nothing on `Done`, and otherwise the one line of the refusal. If the notes fail, they
    // took the start of that line.
    ensures noted { IsNoted (N.faults notes.old) (N.faults notes.new) (N.taken notes.old)
        (N.taken notes.new) (note_of result) }
    ensures not_noted { result ≡ Status.Done → notes.new ≡ notes.old }
{
    // These calls do nothing: their contracts are laws by which a request has only one answer. So a status
    // comes if its cause holds. No two addresses that fit have the same text. An accepted rule's child kinds
    // are a table that addresses can fit. A script has one outcome, and a list one verdict.
    text_law();
    short_numbers_law();
    accepted_children_law();
    one_answer_law();
    builtin_verdict_law();
    let status = answer::<R, W, Box<dyn Layer>, Brand>(
        alloc,
        words.as_slice(),
        source,
        sink,
        layers.as_mut_slice(),
        Blank::new(1),
    );
    write_note(notes, &status);
    status
}
