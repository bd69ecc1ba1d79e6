//! The check of a substitution rule: whether its children fit edge to edge into its inflated prototiles.
//!
//! A rule is accepted if and only if ten clauses hold (Grünbaum and Shephard, Tilings and Patterns, chapter
//! 10). They are on its limits, its prototiles, its factor, its edge types (three), its child edges, its
//! boundaries, its uses and its glue types. None of them names an area, an overlap or a depth beyond one.
//! `check` returns the accepted rule with its contact tables, or the fault of the first clause that fails, at
//! its first place.
#![tactic(auto)]

mod boundaries;
mod boundary;
pub mod check;
pub mod check_fault;
mod child_edges;
mod child_kinds;
mod clauses;
mod contacts;
mod factor;
mod few;
mod fits;
mod glue;
mod inflated;
mod inflation;
pub mod laws;
mod lengths;
mod lie;
mod limits;
mod line;
mod loose;
mod lying;
mod mates;
mod placed_edge;
mod same_point;
mod stars;
mod subdivisions;
mod tables;
mod uses;
pub mod what;
mod wholes;
