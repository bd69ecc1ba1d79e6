//! The tiles of a window, found from the top down.
//!
//! The descent begins with the least ancestor of the base that holds the window, and goes on part by part. If
//! all vertices of a part are beyond one side of the window, none of its tiles meets it. If all are within
//! the window, each of its tiles does. A single tile meets the window if and only if one of its edges does or
//! it holds the centre. So the descent finds exactly the tiles of that ancestor that meet the window, in the
//! order of the list of all. The crate has definitions, proofs and laws, and no other code.
#![tactic(auto)]

pub mod laws;
