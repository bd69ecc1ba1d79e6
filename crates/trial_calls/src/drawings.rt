//! A call of the top call by a line of words, with layers, and what comes of it as a text.
use crate::told::{ended, words_of};
use layer_api::layer::Layer;
use layer_list::census_layer::CensusLayer;
use layer_list::list_layer::ListLayer;
use layer_svg::svg_layer::SvgLayer;
use std::alloc::Global;
use tile_io::steady_sink::SteadySink;
use tile_io::steady_source::SteadySource;
use tile_shape::no_memory::NoMemory;

/// The layers of a call.
pub type Layers = Vec<Box<dyn Layer>>;

/// All formats, as the program hands them in.
pub const ALL: &str = "svg,list,census";

/// A layer of each of these formats, which have commas between; `-` is none.
pub fn layers_of(alloc: Global, formats: &str) -> Result<Layers, NoMemory> {
    let mut layers: Layers = Vec::new(alloc);
    for format in formats.split(',') {
        match format {
            "svg" => layers.push(Box::new(alloc, SvgLayer::new(alloc))?)?,
            "list" => layers.push(Box::new(alloc, ListLayer::new(alloc))?)?,
            "census" => layers.push(Box::new(alloc, CensusLayer::new(alloc))?)?,
            _ => {}
        }
    }
    Ok(layers)
}

/// Runs a line of words with these layers. Returns the exit code, what is printed into so much room, and
/// after a bar what is noted.
pub fn told(alloc: Global, line: &str, layers: Layers, room: usize) -> Result<String, NoMemory> {
    let words = words_of(alloc, line)?;
    let mut source = SteadySource::new(Vec::new(alloc));
    let mut sink = SteadySink::new(alloc, room)?;
    let mut notes = SteadySink::new(alloc, 700)?;
    let code = ended(alloc, &words, &mut source, &mut sink, &mut notes, layers);
    let text = str::from_utf8(sink.taken()).unwrap_or("?");
    let note = str::from_utf8(notes.taken()).unwrap_or("?");
    Ok(format!(in alloc; "{code} {text}|{note}")?)
}

/// Returns true if a call with these layers comes to this.
pub fn comes_to(alloc: Global, line: &str, layers: Layers, wanted: &str) -> bool {
    match told(alloc, line, layers, wanted.len().saturating_add(4000)) {
        Ok(ended) => ended.as_str() == wanted,
        Err(_) => false,
    }
}

/// What a line of words draws, with a layer of each format, or nothing where it is refused.
pub fn text_of(alloc: Global, line: &str, room: usize) -> Result<String, NoMemory> {
    let ended = told(alloc, line, layers_of(alloc, ALL)?, room)?;
    let text = ended.as_str().strip_prefix("0 ").unwrap_or("|");
    Ok(text.strip_suffix("|").unwrap_or("").to_string(alloc)?)
}
