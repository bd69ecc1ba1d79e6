//! The values that cross to C, and what they stand for.
//!
//! A machine crosses as a handle: a pointer to a machine that is never freed and only read. Contracts see the
//! machine's rule, and it is proved that the handle may go to another thread.
//!
//! Addresses, tiles, frames and windows cross as plain numbers of fixed width. Each number that a C caller
//! may pass is tested when a plain value is turned into the engine's own. The definitions in `specs/` say
//! which tile, motion, frame or window the numbers stand for.
#![tactic(auto)]

pub mod machine_slot;
mod numbers;
pub mod opaque;
pub mod plain_address;
pub mod plain_crossing;
pub mod plain_edge_type;
pub mod plain_frame;
pub mod plain_kind;
pub mod plain_outline;
pub mod plain_point;
pub mod plain_relation;
pub mod plain_rule_numbers;
pub mod plain_tile;
pub mod plain_vertex_star;
pub mod plain_whole_tile;
pub mod plain_window;
pub mod shared_machine;
pub mod status;
