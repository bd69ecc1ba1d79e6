//! The clauses by which a rule is accepted: the children of each inflated prototile fit into it edge to edge
//! (Grünbaum and Shephard, Tilings and Patterns, chapter 10).
//!
//! Each child edge is another child's edge traversed backwards, or one part of the boundary. Every clause is
//! a test that computes over the lists of a rule, at depth one, for points of any order. The contact tables
//! of a rule are defined by its geometry: which child edges are opposite, and which are parts of an edge.
//! They are proved to be coherent if the clauses hold. The crate has definitions and proofs, and no other
//! code.
#![tactic(auto)]
