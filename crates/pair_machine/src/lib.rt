//! The pair machine: by which edges two tiles of one supertile meet, found by reading both addresses at once,
//! from coarse to fine.
//!
//! A node is an edge of one kind against an edge of another, in opposite directions. Its row lists the pairs
//! of child edges that meet along it. If the addresses differ at two digits of one parent, the inner contacts
//! between these children are the pairs. From each pair's row, each finer pair of digits keeps what belongs
//! to these children (after S. Tatham's transducers). `PairMachine::decide` promises all pairs of edges that
//! touch, in the order of the first tile's edges.
#![tactic(auto)]

mod alike;
pub mod compare;
pub mod edge_pair;
mod itself;
pub mod laws;
mod looks;
pub mod machine;
mod node;
mod nodes;
mod partners;
mod row;
mod rows;
pub mod verdict;
