//! The tiles of a dissected patch that meet an open box, found from the tile at its centre.
//!
//! The tiles reached from the tile at the centre, across edges that meet the box, are exactly the tiles that
//! meet it, and they cover it. The reason is the law of closed chains. The winding number of a closed chain
//! is constant on a box that the chain avoids, and edges that two tiles share cancel. In a patch that grows,
//! the same tiles are found at the least depth at which the patch holds the centre and no edge of its
//! boundary meets the box. A frame of an accepted rule is such a patch. The crate has definitions, proofs and
//! laws, and no other code.
#![tactic(auto)]

pub mod cover_laws;
pub mod frame_laws;
pub mod patch_laws;
pub mod plane_laws;
pub mod search_laws;
