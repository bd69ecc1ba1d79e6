//! The layer that draws tiles as SVG.
//!
//! It keeps the text that it has written, and no tiles. A head has the box and the scale of the view, and a
//! path for each tile follows. Points are exact until they are written. Then the coordinates X and Y of a
//! vertex are rounded down to thousandths.
#![tactic(auto)]

mod head;
mod kept;
mod path;
pub mod svg_layer;
