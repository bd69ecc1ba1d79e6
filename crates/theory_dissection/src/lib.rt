//! The dissection of supertiles, and the only tile across an edge: what the clauses of the check establish at
//! every depth (Grünbaum and Shephard, Tilings and Patterns, chapter 10).
//!
//! For every accepted rule, the tiles of a supertile share no point and leave none out. About each test
//! point, the counts of their polygons add up to the supertile's, and each is 0 or 1. At most one tile is
//! across an edge, and it is the one that the contact tables find. An edge is on the boundary of its
//! supertile if and only if the tables have a trace of it. The laws carry these theorems for the points of
//! each order. The crate has definitions, proofs and laws, and no other code.
#![tactic(auto)]

pub mod laws;
