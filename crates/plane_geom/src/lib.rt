//! Exact geometry of the plane: sides, crossings and winding numbers, triangles, segments, and the test of an
//! edge against an open box. It is over the ordered rings in which the coordinates X and Y lie.
//!
//! A point belongs to a polygon if the polygon's winding number about it is 1. The winding number is a sum of
//! signed crossings of directed edges, by a half-open rule. An edge has its lower end and not its upper one,
//! and a point on an edge is on neither side of it. Sides, crossings, counts, membership, segments and
//! lengths are exact, each by one definition over an ordered ring. The laws on which dissections rest are
//! proved for every order at once.
#![tactic(auto)]

pub mod box_edges;
mod half_plane;
pub mod laws;
pub mod polygons;
pub mod right_side;
pub mod segments;
pub mod sides;
pub mod triangles;
pub mod window;
