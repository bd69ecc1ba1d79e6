//! The arguments of a command line, read into a request: which command, of which rule, with which values.
//!
//! `request_in` is one function of the arguments. It returns a request, with each value in its own type, or
//! the position of the first wrong argument. In names and clauses, *words* are the arguments.
#![tactic(auto)]

pub mod format_words;
mod glue_word;
mod number;
pub mod path_word;
pub mod request;
mod request_by;
pub mod rule_choice;
mod values;
pub mod window_words;
mod words;
