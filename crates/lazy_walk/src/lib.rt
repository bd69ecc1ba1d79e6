//! Frames: supertiles that grow as they are walked through.
//!
//! A frame is a base tile whose address is open at the coarse end (S. Tatham's combinatorial coordinates).
//! Each further digit makes the supertile around the base one level larger, and moves none of its tiles. To
//! cross an edge the frame grows by as few digits as the crossing needs, so the boundary of a supertile stops
//! a walk only at depth 64. The seed chooses the digits, whatever the walk. No call except `Frame::copy` can
//! run out of memory.
#![tactic(auto)]

pub mod ancestor;
pub mod contain;
pub mod crossing;
pub mod depth_limit;
pub mod frame;
pub mod outward;
pub mod path;
pub mod path_fault;
pub mod step;
pub mod step_grow;
