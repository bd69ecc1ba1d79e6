//! The tiles around a vertex of a base tile.
//!
//! From the base the walk turns around the vertex from tile to tile, each across the edge of the one before
//! that ends at the vertex. The frame grows only as far as that needs. The turn comes back to the base, and
//! has then visited exactly the tiles that have the vertex. No list of tiles is searched.
#![tactic(auto)]

pub mod corner;
pub mod star;
pub mod star_fault;
mod star_laws;
mod step_round;
pub mod turn;
