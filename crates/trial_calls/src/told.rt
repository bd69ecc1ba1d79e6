//! What comes of a call of the top call, as a text, with streams that may fail.
use layer_api::layer::Layer;
use layer_list::list_layer::ListLayer;
use std::alloc::{AllocError, Global};
use tile_app::run::run;
use tile_io::mem_sink::MemSink;
use tile_io::mem_source::MemSource;
use tile_io::sink::Sink;
use tile_io::source::Source;
use tile_shape::no_memory::NoMemory;

/// Which calls fail: the read of this number, counted from 1, and all writes and notes after these numbers.
/// If `read` is 0, no read fails. Each write takes a byte.
#[derive(Clone, Copy)]
pub struct Failing {
    pub read: u64,
    pub writes: usize,
    pub notes: usize,
}

/// No call fails.
pub const SOUND: Failing = Failing {
    read: 0,
    writes: 100_000,
    notes: 100_000,
};

/// The words of a line, parted by blanks; an empty line has none.
pub fn words_of(alloc: Global, line: &str) -> Result<Vec<String>, AllocError> {
    let mut words = Vec::new(alloc);
    if !line.is_empty() {
        for word in line.split(' ') {
            words.push(word.to_string(alloc)?)?;
        }
    }
    Ok(words)
}

/// A layer that lists tiles, alone.
fn one_list(alloc: Global) -> Result<Vec<Box<dyn Layer>>, NoMemory> {
    let mut layers: Vec<Box<dyn Layer>> = Vec::new(alloc);
    layers.push(Box::new(alloc, ListLayer::new(alloc))?)?;
    Ok(layers)
}

/// Runs words over streams, with these layers. Returns the exit code.
pub fn ended<R: Source, W: Sink, N: Sink>(
    alloc: Global,
    words: &Vec<String>,
    source: &mut R,
    sink: &mut W,
    notes: &mut N,
    layers: Vec<Box<dyn Layer>>,
) -> u8 {
    run(alloc, words, source, sink, notes, layers).code()
}

/// An exit code, what was printed, and after a bar what was noted.
fn text_of(alloc: Global, code: u8, sink: &MemSink, notes: &MemSink) -> Result<String, AllocError> {
    let printed = str::from_utf8(sink.taken()).unwrap_or("?");
    let noted = str::from_utf8(notes.taken()).unwrap_or("?");
    format!(in alloc; "{code} {printed}|{noted}")
}

/// Runs words over a source and a sink. Returns what comes of it as a text.
fn told_into(
    alloc: Global,
    words: &Vec<String>,
    source: &mut MemSource,
    sink: &mut MemSink,
    room: usize,
) -> Result<String, NoMemory> {
    let mut notes = MemSink::new(alloc, room, 1, Vec::new(alloc))?;
    let code = ended(alloc, words, source, sink, &mut notes, one_list(alloc)?);
    Ok(text_of(alloc, code, sink, &notes)?)
}

/// The same with a sink of its own.
fn told_of(
    alloc: Global,
    words: &Vec<String>,
    source: &mut MemSource,
    failing: &Failing,
) -> Result<String, NoMemory> {
    let mut sink = MemSink::new(alloc, failing.writes, 1, Vec::new(alloc))?;
    told_into(alloc, words, source, &mut sink, failing.notes)
}

/// Runs a line of arguments over a source. Returns the exit code, the output, and after a bar the notes.
pub fn told_over(
    alloc: Global,
    line: &str,
    source: &mut MemSource,
    failing: &Failing,
) -> Result<String, NoMemory> {
    let words = words_of(alloc, line)?;
    told_of(alloc, &words, source, failing)
}

/// Like [`told_over`], over a source of these bytes that gives 16 a call.
pub fn told(alloc: Global, line: &str, file: &str, failing: &Failing) -> Result<String, NoMemory> {
    let bytes = file.as_bytes().to_vec(alloc)?;
    let mut source = MemSource::new(bytes, 16, vec![in alloc; failing.read]?);
    told_over(alloc, line, &mut source, failing)
}
