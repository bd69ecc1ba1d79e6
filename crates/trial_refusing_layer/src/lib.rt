//! Layers for testing code that draws through layers: two that refuse, and one that is counted.
//!
//! All pass their calls on to another layer and implement the trait. `Refusing` refuses one call, and does
//! not change on it. `Particular` refuses tiles that are not whole. `Counted` has a share of a token, so its
//! maker can see if it was dropped.
#![tactic(auto)]

pub mod counted;
pub mod particular;
pub mod refusing;
