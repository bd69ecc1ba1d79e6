//! Parts of supertiles, and how they lie relative to a window.
//!
//! A part lies *beyond* a side of a window, *within* the window, or *across* it, judged by the sides that its
//! vertices are inside of. A single tile that is across is tested exactly: it meets the window if one of its
//! edges does, or if it holds the centre.
//!
//! - [`climb`](climb::climb) finds the first ancestor of the base whose polygon holds the window.
//! - [`Rows`](rows::Rows) keeps the children of each supertile that is visited, by level, kind and turn, and
//!   the bounds of its polygon.
//! - [`place_of`](placing::place_of) finds how a part lies relative to the window: usually by these bounds,
//!   otherwise by the vertices.
#![tactic(auto)]

mod bounds;
pub mod climb;
pub mod inside;
pub mod meeting;
pub mod part;
pub mod placing;
mod row_bounds;
mod row_key;
pub mod rows;
mod sides;
pub mod standing;
