//! Reads the text of a list of tiles, a line for each.
//!
//! What a list means is one total function of its bytes: the entries of its lines, or the first fault. The
//! reader returns what that function gives, whatever the bytes are.
#![tactic(auto)]

pub mod entry;
pub mod laws;
mod line;
pub mod listing_fault;
mod number;
pub mod reading;
