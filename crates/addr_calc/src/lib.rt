//! Runs a script of questions about the addresses of tiles.
//!
//! A script is read line by line. It binds the names `a` to `z` to addresses, and prints them. It prints
//! where their tiles lie in the supertile, the tile across an edge, the level from which on two addresses
//! agree, and by which edges two tiles meet (S. Tatham's combinatorial coordinates). `calc::calc` returns the
//! text of the script, or the fault of the first line that has one. A definition over the lines says which,
//! and a law that a script has one outcome.
#![tactic(auto)]

mod bindings;
pub mod calc;
pub mod calc_fault;
mod calculation;
mod cut;
pub mod laws;
mod level;
mod name;
mod pairs;
mod relation_line;
mod statement;
