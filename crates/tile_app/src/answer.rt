//! The answer to a call, or its refusal.
ghost use Rattle.std.specs.Prelude.{◌≡◌, ℕ, List, None, false, map, IfOk, IfErr, IsErrOf};
ghost use Rattle.call_words.specs.FormatWords.{first_lacking};
ghost use Rattle.call_words.specs.Request.{formats_of};
ghost use Rattle.call_words.specs.Views.{AreWithinForms, IsWithinForms, question_of, request_of};
ghost use Rattle.call_words.specs.Words.{texts};
ghost use Rattle.rule_model.specs.Tiling.{tiling_of};
ghost use Rattle.tile_io.specs.Causes.{Rose};
ghost use Rattle.tile_app.specs.Answer.{IsPrinted, Prints};
ghost use Rattle.tile_app.specs.Asked.{OfCall};
ghost use Rattle.tile_app.specs.BaseFrame.{IsBaseFrame, question_in};
ghost use Rattle.tile_app.specs.Call.{reads_file};
ghost use Rattle.tile_app.specs.Causes.{IsRefused};
ghost use Rattle.tile_app.specs.Files.{has_own_file};
ghost use Rattle.tile_app.specs.LayerTexts.{IsTextOf};
ghost use Rattle.tile_app.specs.Reading.{IsItsTiling, OfOwnFile, IsRequestRefused};

use crate::calc::calc_text;
use crate::check::check_text;
use crate::draw::draw_text;
use crate::drill::drill_text;
use crate::layers::first_lacking;
use crate::neighbour::neighbour_text;
use crate::place::{named_place_text, place_text};
use crate::rule_chosen::rule_chosen;
use crate::star::star_text;
use crate::tile::tile_at;
use crate::verify::verify_text;
use crate::walk::walk_text;
use crate::whole_answer::WholeAnswer;
use call_notes::status::Status;
use call_words::request::{Question, Request, request_in};
use call_words::rule_choice::RuleChoice;
use edge_tables::steps::Steps;
use layer_api::layer::Layer;
use lazy_walk::frame::Frame;
use rule_model::checked::Checked;
use std::alloc::Global;
use std::sync::ledger::Ledger;
use tile_io::source::Source;
use tile_place::machine::Machine;

/// Returns the answer to a question about the frame of a tile, or its refusal. Only `verify` reads the source.
fn question_text<R: Source, D: Layer, L: Ledger>(
    alloc: Global,
    question: &Question<'_>,
    machine: &Machine,
    frame: &mut Frame,
    source: &mut R,
    layers: &mut [D],
    steps: &mut Steps<L>,
) -> Result<WholeAnswer, Status>
    requires within { AreWithinForms question.now }
    requires base { IsBaseFrame (tiling_of machine.now) frame.old }
    requires have_layers { first_lacking (map D.form layers.old)
        (formats_of (question_in frame.old question.now)) ≡ None }
    requires its_tiling { IsItsTiling (question_in frame.old question.now) (tiling_of machine.now) }
    ensures printed { IfOk result (λ answer. (text : List ℕ)
        × OfOwnFile (question_in frame.old question.now) (R.left source.old) (R.left source.new)
        (λ file. IsPrinted (question_in frame.old question.now) file (tiling_of machine.now) text)
        × IsTextOf D.form D.seen D.ended D.draws layers.new answer text) }
    ensures refused { IfErr result (IsRequestRefused (question_in frame.old question.now)
        (tiling_of machine.now) (R.left source.old) (R.left source.new)) }
    ensures read_fault { IsErrOf result Status.ReadFault → Rose (R.faults source.old) (R.faults source.new) }
    ensures untouched { has_own_file (question_in frame.old question.now) ≡ false
        → source.new ≡ source.old }
{
    match question {
        Question::Walk { grow, path, .. } => {
            walk_text(alloc, machine, frame, *grow, path, steps).map(WholeAnswer::Text)
        }
        Question::Draw {
            window,
            layers: formats,
            glue,
            ..
        } => draw_text(alloc, machine, frame, window, formats, *glue, layers),
        Question::Star { vertex, .. } => {
            star_text(alloc, machine, frame, *vertex, steps).map(WholeAnswer::Text)
        }
        Question::Verify { window, .. } => {
            verify_text(alloc, machine, frame, window, source).map(WholeAnswer::Text)
        }
    }
}

/// Returns the answer to a question about the frame of the tile with this address, or its refusal. The address
/// is read before the machine of the rule is made.
fn frame_text<R: Source, D: Layer, L: Ledger>(
    alloc: Global,
    checked: Checked,
    addr: &str,
    seed: u64,
    question: &Question<'_>,
    source: &mut R,
    layers: &mut [D],
    steps: &mut Steps<L>,
) -> Result<WholeAnswer, Status>
    requires within { AreWithinForms question.now }
    requires have_layers { first_lacking (map D.form layers.old)
        (formats_of (question_of addr.now seed question.now)) ≡ None }
    requires its_tiling { IsItsTiling (question_of addr.now seed question.now) (tiling_of checked) }
    ensures printed { IfOk result (λ answer. (text : List ℕ)
        × OfOwnFile (question_of addr.now seed question.now) (R.left source.old) (R.left source.new)
        (λ file. IsPrinted (question_of addr.now seed question.now) file (tiling_of checked) text)
        × IsTextOf D.form D.seen D.ended D.draws layers.new answer text) }
    ensures refused { IfErr result (IsRequestRefused (question_of addr.now seed question.now)
        (tiling_of checked) (R.left source.old) (R.left source.new)) }
    ensures read_fault { IsErrOf result Status.ReadFault → Rose (R.faults source.old) (R.faults source.new) }
    ensures untouched { has_own_file (question_of addr.now seed question.now) ≡ false
        → source.new ≡ source.old }
{
    let tile = tile_at(&checked, addr)?;
    let machine = Machine::new(alloc, checked)?;
    let mut frame = Frame::new(tile, seed);
    question_text(alloc, question, &machine, &mut frame, source, layers, steps)
}

/// Returns the answer to a request with an accepted rule, or its refusal.
fn request_text<R: Source, D: Layer, L: Ledger>(
    alloc: Global,
    request: &Request<'_>,
    checked: Checked,
    source: &mut R,
    layers: &mut [D],
    steps: &mut Steps<L>,
) -> Result<WholeAnswer, Status>
    requires within { IsWithinForms request.now }
    requires have_layers { first_lacking (map D.form layers.old) (formats_of (request_of request.now))
        ≡ None }
    requires its_tiling { IsItsTiling (request_of request.now) (tiling_of checked) }
    ensures printed { IfOk result (λ answer. (text : List ℕ)
        × OfOwnFile (request_of request.now) (R.left source.old) (R.left source.new)
        (λ file. IsPrinted (request_of request.now) file (tiling_of checked) text)
        × IsTextOf D.form D.seen D.ended D.draws layers.new answer text) }
    ensures refused { IfErr result (IsRequestRefused (request_of request.now) (tiling_of checked)
        (R.left source.old) (R.left source.new)) }
    ensures read_fault { IsErrOf result Status.ReadFault → Rose (R.faults source.old) (R.faults source.new) }
    ensures untouched { has_own_file (request_of request.now) ≡ false → source.new ≡ source.old }
{
    match request {
        Request::Place { addr, .. } => place_text(alloc, &checked, addr).map(WholeAnswer::Text),
        Request::Neighbour { addr, edge, .. } => {
            neighbour_text(alloc, checked, addr, *edge, steps).map(WholeAnswer::Text)
        }
        Request::Check { .. } => Ok(WholeAnswer::Text(check_text(alloc, &checked)?.into_bytes())),
        Request::Calc { .. } => calc_text(alloc, checked, source).map(WholeAnswer::Text),
        Request::Drill { count, seed, .. } => {
            drill_text(alloc, checked, *count, *seed).map(WholeAnswer::Text)
        }
        Request::InFrame {
            addr,
            seed,
            question,
        } => frame_text(alloc, checked, addr, *seed, question, source, layers, steps),
    }
}

/// Returns the whole answer to the call, or its refusal.
///
/// The arguments are read once, into a request, and each format that they name must have a layer. Then the
/// rule is made, which may read a rule file. Then the address is read, and last a script or a list of tiles.
/// `place` does not make a built-in rule.
pub fn answer_text<R: Source, D: Layer, L: Ledger>(
    alloc: Global,
    words: &[String],
    source: &mut R,
    layers: &mut [D],
    steps: &mut Steps<L>,
) -> Result<WholeAnswer, Status>
    ensures printed { IfOk result (λ answer. OfCall (texts words.now) (map D.form layers.old)
        (R.left source.old) (R.left source.new)
        (λ c. (text : List ℕ) × Prints c text
        × IsTextOf D.form D.seen D.ended D.draws layers.new answer text)) }
    ensures refused { IfErr result (IsRefused (texts words.now) (map D.form layers.old) (R.left source.old)
        (R.left source.new)) }
    ensures read_fault { IsErrOf result Status.ReadFault → Rose (R.faults source.old) (R.faults source.new) }
    ensures untouched { reads_file (texts words.now) (map D.form layers.old) ≡ false
        → source.new ≡ source.old }
{
    let mut room = None;
    let request = match request_in(words, &mut room) {
        Ok(request) => request,
        Err(place) => return Err(Status::BadWords { place }),
    };
    if let Some(format) = first_lacking(layers, request.formats()) {
        return Err(Status::NoLayer { format });
    }
    let rule = request.rule();
    if let (Request::Place { addr, .. }, RuleChoice::Builtin { name }) = (&request, rule) {
        return named_place_text(alloc, name, addr).map(WholeAnswer::Text);
    }
    let checked = rule_chosen(alloc, rule, source)?;
    request_text(alloc, &request, checked, source, layers, steps)
}
