//! What every layer does, as a trait, and the texts of the three formats: a picture, a list, and counts of
//! tiles.
//!
//! A layer has a format. It begins with a view, and takes the tiles of that view one after another. At the
//! end it has the text of its format: the picture as SVG, the list of the tiles, or the census, which counts
//! them by class. The definition `layer_text` gives this text, for each view and each list of tiles.
//!
//! The caller hands layers in, so the engine can draw with layers that it does not know.
#![tactic(auto)]

mod backwards;
pub mod boxed;
pub mod drawn;
pub mod format;
mod kept_pair;
pub mod layer;
pub mod line;
pub mod part;
pub mod view;
