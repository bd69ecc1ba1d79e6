//! Frames of a substitution tiling: a base tile whose address grows at the coarse end, and the tiles of its
//! supertile. They are moved so that the base is in the position of its prototile.
//!
//! Combinatorial coordinates (S. Tatham, Combinatorial coordinates for the aperiodic monotile) leave the
//! coarse end of an address open. Each further digit says which child of which parent the supertile reached
//! so far is. The crate proves that such a digit moves no tile that is already placed, over the points of any
//! order and for any factor. It also defines which tile of a supertile holds a point, found from the top
//! down, with the values on the way. It has definitions, proofs and laws, and no other code.
#![tactic(auto)]

pub mod laws;
