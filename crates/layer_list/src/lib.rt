//! The layers that list and count tiles: `ListLayer` writes a line for each tile, and `CensusLayer` counts
//! tiles by class.
//!
//! Neither keeps the tiles. The list keeps the lines that it has written, and the census its counts.
#![tactic(auto)]

pub mod census_layer;
pub mod list_layer;
