//! Address transducers: the tile across an edge, found by its address alone, without any point of the plane
//! (S. Tatham, Combinatorial coordinates for the aperiodic monotile).
//!
//! A climb from the fine digits ends at the first level at which the edge is another child's edge as well. A
//! descent from there writes the digits of the tile on the other side; part for part, the numbers are
//! mirrored.
//!
//! `Transducer::step_across` promises the only pair of tile and edge that the edge touches, at the same
//! depth. It needs at most two look-ups a level and two more, and the return edge leads back. If the edge
//! lies on the supertile's own edge, it returns that edge with the part.
#![tactic(auto)]

mod blocks;
mod climb;
pub mod crossing;
mod descent;
pub mod flat_table;
mod joined;
pub mod laws;
mod merging;
mod mirror;
pub mod outside;
mod spread;
pub mod transducer;
mod words;
