//! The answer to a call, and how it is written.
ghost use Rattle.std.specs.Prelude.{◌≡◌, ℕ, List, OnOk, OnErr};
ghost use Rattle.tile_io.specs.Causes.{HasCause};
ghost use Rattle.tile_io.specs.Taken.{Takes, TakesProperPrefix};
ghost use Rattle.tile_app.specs.declared.whole_answer.WholeAnswer.TheVariants.{Layers};
ghost use Rattle.tile_app.specs.LayerTexts.{HaveText, IsTextOf};

use crate::layers::place_of;
use arrayvec::ArrayVec;
use call_words::format_words::MOST_FORMATS;
use layer_api::format::Format;
use layer_api::layer::Layer;
use tile_io::failed::Failed;
use tile_io::laws::{causes_in_turn_law, taken_in_turn_law};
use tile_io::sink::Sink;
use tile_io::writing::write_all;

/// The answer to a call, complete in memory before its first byte is written.
#[derive(Drop)]
pub enum WholeAnswer {
    /// A text.
    Text(Vec<u8>),
    /// The texts of the first layers with these formats, one after another. They stay in the layers.
    Layers(ArrayVec<Format, MOST_FORMATS>),
}

impl WholeAnswer {
    /// Makes an answer of the texts of the first layers with these formats.
    pub fn of_layers(formats: &ArrayVec<Format, MOST_FORMATS>) -> WholeAnswer
        ensures { result ≡ Layers formats.now }
    {
        let mut copied = ArrayVec::new();
        let _ = copied.try_extend_from_slice(formats.as_slice());
        WholeAnswer::Layers(copied)
    }
}

/// Writes the texts of the first layers with some formats, one after another.
fn write_texts<W: Sink, D: Layer>(
    sink: &mut W,
    layers: &[D],
    formats: &[Format],
) -> Result<(), Failed>
    requires whole { (text : List ℕ) × HaveText D.form D.seen D.ended D.draws layers.now formats.now text }
    ensures all { (text : List ℕ) → HaveText D.form D.seen D.ended D.draws layers.now formats.now text
        → OnOk result (Takes (W.taken sink.old) (W.taken sink.new) text) }
    ensures part { (text : List ℕ) → HaveText D.form D.seen D.ended D.draws layers.now formats.now text
        → OnErr result (TakesProperPrefix (W.taken sink.old) (W.taken sink.new) text) }
    ensures cause { HasCause (W.faults sink.old) (W.faults sink.new) result }
{
    taken_in_turn_law();
    causes_in_turn_law();
    for format in formats {
        let place = place_of(layers, *format).unwrap();
        write_all(sink, layers[place].bytes())?;
    }
    Ok(())
}

/// Writes an answer. It needs no memory.
///
/// # Errors
///
/// `Failed` only if the sink's count of faults rose; then a proper prefix of the answer's text was taken.
pub fn write_answer<W: Sink, D: Layer>(
    sink: &mut W,
    layers: &[D],
    answer: &WholeAnswer,
) -> Result<(), Failed>
    requires whole { (text : List ℕ) × IsTextOf D.form D.seen D.ended D.draws layers.now answer.now text }
    ensures all { (text : List ℕ) → IsTextOf D.form D.seen D.ended D.draws layers.now answer.now text
        → OnOk result (Takes (W.taken sink.old) (W.taken sink.new) text) }
    ensures part { (text : List ℕ) → IsTextOf D.form D.seen D.ended D.draws layers.now answer.now text
        → OnErr result (TakesProperPrefix (W.taken sink.old) (W.taken sink.new) text) }
    ensures cause { HasCause (W.faults sink.old) (W.faults sink.new) result }
{
    match answer {
        WholeAnswer::Text(text) => write_all(sink, text.as_slice()),
        WholeAnswer::Layers(formats) => write_texts(sink, layers, formats.as_slice()),
    }
}
