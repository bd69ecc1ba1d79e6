//! The plane over an ordered ring: sides of edges, crossings and winding numbers, triangles and fans,
//! segments, and the test of an edge against an open box.
//!
//! A point is a pair of numbers of the ring. A test point has an integer of at least 1 as its denominator, so
//! every definition computes, and no fraction is needed. Crossings follow the half-open rule of
//! point-in-polygon tests: an edge has its lower end, and not its upper one.
//!
//! No order of points and no type of the program is named here. The crate has definitions and proofs, and no
//! other code; `plane_geom` carries its laws for the points of each order.
#![tactic(auto)]
