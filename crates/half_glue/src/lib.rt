//! Whole tiles from half tiles.
//!
//! Some substitution rules are stated for halves of the tiles that a picture shows: kites, darts, rhombs and
//! squares are each cut along a line of symmetry. A rule names the types of the edges along which halves are
//! glued.
//!
//! Each half among the given tiles is joined with the half across its glue edge, whether that one is given or
//! not. The frame grows only as far as this needs. A half that is given is looked up by its place; only the
//! others need a crossing. Each whole tile comes exactly once. The half with the lesser kind comes first in
//! it, and whole tiles have the order of their first halves.
//!
//! The laws of whole tiles say what their outlines are, and that they cover what their parts cover.
#![tactic(auto)]

mod arranged;
mod covered_order;
mod covered_pairs;
pub mod given_law;
pub mod glue;
pub mod glue_covered;
pub mod glue_fault;
mod glue_laws;
mod glue_side;
pub mod glued_tiles;
mod guesses;
mod half;
mod inner_pairs;
mod kind_edge;
mod look_up;
mod merge;
mod numbered_tiles;
mod paired;
mod pairs;
pub mod parts_law;
mod tile_search;
pub mod whole_laws;
pub mod whole_tile;
mod window_search;
