//! Finds the tiles of a window: all tiles that meet it, and no others.
//!
//! A window is an open box around a point in the frame of a base tile. The frame grows only as far as the
//! window needs.
//!
//! [`covered_tiles`](tiles_of_window::covered_tiles) handles a large window from the top down. The descent
//! starts from the first ancestor of the base that holds the window, and drops each part that lies beyond a
//! side. A part within the window is not followed down to its tiles. It becomes one *run* of a *block* of
//! leaves: the tiles of such a part at the origin, which parts share.
//!
//! Any other window, and each refusal, is handled by a search, and [`cover`](tiles_of_window::cover) always
//! searches. The search starts from the tile at the centre, and crosses the edges that meet the window. It
//! keeps the tiles found. In a map it keeps the *open edges*: edges of these tiles that meet the window and
//! have no tile found across them. When no edge is open, the tiles found are all that meet the window.
#![tactic(auto)]

mod admit;
mod arrange;
mod block;
mod blocks;
mod border;
mod by_descent;
mod counts;
pub mod cover;
pub mod cover_fault;
pub mod covered_tiles;
mod descend;
mod ends;
mod fields;
pub mod find_tiles;
mod finish;
mod found_tile;
pub mod found_tiles;
mod gather;
mod laws;
mod lifted;
mod new_edges;
mod numbered;
pub mod open_edge;
mod order;
mod passes;
mod reach;
mod run;
mod run_tile;
mod runs;
pub mod search_laws;
mod span;
mod start;
mod step;
pub mod tiles_of_window;
