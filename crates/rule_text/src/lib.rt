//! Reads and writes rule files: substitution rules as TOML documents.
//!
//! A total function of the definitions gives what a file stands for: a rule, or the first fault in the order
//! in which the keys are read. `read_rule` returns exactly that, unless memory runs out. `write_rule` writes
//! a text that is read back as the rule it was given.
//!
//! The text does not decide how many kinds or types a rule may have, or whether its children dissect its
//! inflated prototiles. The check of the rule decides that.
#![tactic(auto)]

mod forms;
mod further;
pub mod key;
mod keys;
pub mod laws;
pub mod place;
mod ranges;
pub mod reading;
pub mod text_fault;
mod values;
pub mod writing;
