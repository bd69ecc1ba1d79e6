//! How a call ended: its status, the exit code, and the line that a refusal writes to the notes.
//!
//! A fault of any call below has one status and one spelling. The spelling is a definition, and each note is
//! proved to match it. A note is built in fixed storage, without memory.
#![tactic(auto)]

mod fault_status;
pub mod fault_words;
mod line;
pub mod note;
pub mod rule_fault;
pub mod rule_fault_words;
pub mod script_fault;
pub mod status;
