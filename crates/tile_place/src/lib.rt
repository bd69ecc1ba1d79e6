//! The tiles of an accepted rule: where a tile lies in its supertile, which tile holds a point, and which
//! tile is across an edge.
//!
//! A substitution (Grünbaum and Shephard, Tilings and Patterns, chapter 10) gives each tile of a supertile
//! one address and one motion.
//!
//! - [`place`](place::place) computes the motion from the address, by Horner's scheme on the digits. It
//!   refuses a motion exactly if a value on the way is too large.
//! - [`Machine::locate`](machine::Machine::locate) finds the tile that holds a point.
//! - [`Machine::cross`](machine::Machine::cross) finds the tile across an edge, from the contact tables of
//!   the rule's own geometry (Tatham's transducers).
//!
//! All hold for every accepted rule. After `Machine::new` no call needs memory.
#![tactic(auto)]

mod compared;
pub mod coord_limit;
mod digits;
mod edge_turns;
mod glue;
mod hold;
mod inflated_tile;
mod locate;
pub mod locate_fault;
mod look;
pub mod machine;
mod moved_supertile;
pub mod order_key;
mod outline;
mod part;
pub mod place;
pub mod placed_tile;
mod powers;
mod prototile_edge;
mod search;
mod seen;
mod small_point;
mod tile_corners;
mod turned_vertices;
