//! Layers in boxes.
use crate::texts::{CHAIRS_CENSUS, CHAIRS_LIST, CHAIRS_SVG};
use crate::tiles::drawn;
use crate::wrong::Wrong;
use layer_api::format::Format;
use layer_api::layer::Layer;
use layer_list::census_layer::CensusLayer;
use layer_list::list_layer::ListLayer;
use layer_svg::svg_layer::SvgLayer;
use std::alloc::Global;
use tile_shape::no_memory::NoMemory;

/// The text of two chairs in a format.
fn wanted(format: Format) -> &'static str {
    match format {
        Format::Svg => CHAIRS_SVG,
        Format::List => CHAIRS_LIST,
        Format::Census => CHAIRS_CENSUS,
    }
}

/// Three layers in boxes.
fn three_boxes(alloc: Global) -> Result<Vec<Box<dyn Layer>>, NoMemory> {
    let mut layers: Vec<Box<dyn Layer>> = Vec::new(alloc);
    layers.push(Box::new(alloc, SvgLayer::new(alloc))?)?;
    layers.push(Box::new(alloc, ListLayer::new(alloc))?)?;
    layers.push(Box::new(alloc, CensusLayer::new(alloc))?)?;
    Ok(layers)
}

/// Notes the first of three layers in boxes that doesn't draw the text of its format.
pub(crate) fn note_boxes(alloc: Global, wrong: &mut Wrong) {
    match three_boxes(alloc) {
        Ok(mut layers) => {
            for (row, layer) in layers.iter_mut().enumerate() {
                let wanted = wanted(layer.format());
                wrong.note("boxes", row, drawn(layer, wanted) == Some(true));
            }
        }
        Err(NoMemory) => wrong.note("boxes", 0, false),
    }
}
