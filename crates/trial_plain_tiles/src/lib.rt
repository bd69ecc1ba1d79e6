//! The brute-force reference program of the trials: whole supertiles and frames, listed tile by tile.
//!
//! It lists all addresses of a supertile, places each tile by its address alone, and tests each one against a
//! point or a window. The trials compare this with what the engine finds by searching. It also makes random
//! walks, and follows them back by the edges that lead back.
//!
//! The trial crates and the program `trial_rule_files` build on it. It claims nothing of its own: its
//! contracts state only what the calls under test require.
#![tactic(auto)]

pub mod built_in;
pub mod counts;
pub mod drawn_tile;
pub mod draws;
pub mod frame_tiles;
pub mod least_frame;
pub mod located;
pub mod pairs;
pub mod placing;
pub mod points;
pub mod small;
pub mod supertile;
pub mod two_ways;
pub mod vertex_tiles;
pub mod walks;
pub mod window_tiles;
