//! Checks lists of the tiles of a window from other programs.
//!
//! A walk through the lines of a list decides whether it is right. It begins with the tile at the centre of
//! the window, and goes on across edges that meet the window. It looks for each tile that it reaches among
//! the lines. The list is right if and only if the walk ends and has found each line. A list that is byte for
//! byte the text of the window's tiles needs no walk.
#![tactic(auto)]

mod as_written;
mod crossed_edges;
pub mod entries;
mod found_lines;
pub mod laws;
mod lifted_lines;
mod line_index;
mod line_tile;
pub mod list_fault;
mod list_laws;
mod same_address;
mod same_motion;
mod verifier;
pub mod verify;
mod walk;
mod window_edges;
