//! Contact tables: the numbers on which Tatham's address transducers run. For each edge of a child they list
//! the edge of another child that it meets, or the part of the parent's own edge that it is.
//!
//! [`Tables`](tables::Tables) promises that its tables fit together: contacts are mutual, and edges that meet
//! are cut alike. Each of the two look-ups that a crossing makes adds one to a counter, so that callers can
//! bound the steps.
//!
//! Source: Tatham, *Combinatorial coordinates for the aperiodic monotile*.
#![tactic(auto)]

pub mod child_edge;
pub mod contact;
pub mod kind_rows;
pub mod laws;
pub mod lists;
pub mod steps;
pub mod tables;
