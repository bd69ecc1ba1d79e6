//! All that the command does, over bytes in memory.
ghost use Rattle.std.specs.Prelude.{◌≡◌, ◌⊎◌, false, map, IfOk, IsTrue};
ghost use Rattle.call_words.specs.Words.{texts};
ghost use Rattle.call_notes.specs.Status.{IsCutShort};
ghost use Rattle.c_values.specs.Statuses.{ok, not_text, no_memory};
ghost use Rattle.tiling_c.specs.Calling.{EndsWith, ShowsCall, all_formats, arguments_in, call_in};

use crate::growing_sink::GrowingSink;
use crate::opening::put_text;
use c_values::status::{NO_MEMORY, NOT_TEXT, OK};
use call_notes::status::Status;
use layer_api::format::Format;
use layer_api::layer::Layer;
use layer_list::census_layer::CensusLayer;
use layer_list::list_layer::ListLayer;
use layer_svg::svg_layer::SvgLayer;
use std::alloc::{AllocError, Global};
use std::str;
use tile_app::run::run;
use tile_io::steady_source::SteadySource;

/// Returns the arguments that a text has between its newlines.
fn arguments(alloc: Global, text: &str) -> Result<Vec<String>, AllocError>
    ensures { IfOk result (λ words. texts words.items ≡ arguments_in text.now) }
{
    let pieces: Vec<&str> = text.split('\n').collect(alloc)?;
    let mut words = Vec::new(alloc);
    for piece in pieces.iter() {
        words.push(piece.to_string(alloc)?)?;
    }
    Ok(words)
}

/// Makes a source that gives the bytes of a file.
fn source_of(alloc: Global, file: &[u8]) -> Result<SteadySource, AllocError>
    ensures { IfOk result (λ source. source ≡ file.now) }
{
    let mut bytes = Vec::new(alloc);
    bytes.extend_from_slice(file)?;
    Ok(SteadySource::new(bytes))
}

/// Returns true if a call was cut short: memory ran out, or the source failed.
fn is_cut_short(status: &Status) -> bool
    ensures { result ≡ false → ¬ IsCutShort status.now }
{
    match status {
        Status::NoMemory | Status::ReadFault => true,
        _ => false,
    }
}

/// Returns true if layers have all formats, in their order.
fn have_all_formats<D: Layer>(layers: &[D]) -> bool
    ensures { IsTrue result → map D.form layers.now ≡ all_formats }
{
    layers.len() == 3
        && layers[0].format() == Format::Svg
        && layers[1].format() == Format::List
        && layers[2].format() == Format::Census
}

/// How a call of the command ended: its exit code, what it printed, and the line that it noted.
#[derive(Drop)]
struct Ending {
    code: u8,
    printed: GrowingSink,
    noted: GrowingSink,
}

/// Does what the command does with the arguments of a text and with an input. Err if memory runs out. (The
/// layers, one of each format, are made here, since no function may hand out a `dyn`. They are tested, so that
/// the contract of `run` speaks of their formats; the test never fails.)
fn answer(alloc: Global, text: &str, input: &[u8]) -> Result<Ending, AllocError>
    ensures { IfOk result (λ ending. EndsWith (call_in text.now input.now) ending.printed.bytes.items
        ending.noted.bytes.items ending.code) }
{
    let words = arguments(alloc, text)?;
    let mut source = source_of(alloc, input)?;
    let mut layers: Vec<Box<dyn Layer>> = Vec::new(alloc);
    layers.push(Box::new(alloc, SvgLayer::new(alloc))?)?;
    layers.push(Box::new(alloc, ListLayer::new(alloc))?)?;
    layers.push(Box::new(alloc, CensusLayer::new(alloc))?)?;
    if !have_all_formats(layers.as_slice()) {
        return Err(AllocError);
    }
    let mut printed = GrowingSink::new(alloc);
    let mut noted = GrowingSink::new(alloc);
    let status = run(alloc, &words, &mut source, &mut printed, &mut noted, layers);
    if is_cut_short(&status) || printed.has_failed() || noted.has_failed() {
        return Err(AllocError);
    }
    Ok(Ending {
        code: status.code(),
        printed,
        noted,
    })
}

/// Does all that the command does. `words` are its arguments, with newlines between them, and `input` is what
/// its standard input gives. `out` takes what it prints, and `note` its line of a refusal, each as far as
/// there is room. `out_bytes` and `note_bytes` take their whole lengths.
#[unsafe(no_mangle)]
pub extern "C" fn tiling_call(
    alloc: Global,
    words: &[u8],
    input: &[u8],
    out: &mut [u8],
    out_bytes: &mut usize,
    note: &mut [u8],
    note_bytes: &mut usize,
) -> u8
    ensures shown { ShowsCall words.now input.now out.old out.new out_bytes.new note.old note.new
        note_bytes.new result }
    ensures out_unchanged { ¬ result ≡ ok → (out.new ≡ out.old) × (out_bytes.new ≡ out_bytes.old) }
    ensures note_unchanged { (result ≡ ok) ⊎ (result ≡ not_text) ⊎ (result ≡ no_memory)
        → (note.new ≡ note.old) × (note_bytes.new ≡ note_bytes.old) }
{
    let text = match str::from_utf8(words) {
        Ok(text) => text,
        Err(_) => return NOT_TEXT,
    };
    let Ok(ending) = answer(alloc, text, input) else {
        return NO_MEMORY;
    };
    if ending.code == OK {
        put_text(ending.printed.bytes(), out, out_bytes);
        return OK;
    }
    put_text(ending.noted.bytes(), note, note_bytes);
    ending.code
}
