//! The top call of the engine, `run`: from the arguments of a command line to the bytes that a sink takes.
//!
//! Its clauses carry what the program promises: what is printed on success, the cause of every refusal except
//! out of memory, and what the notes take. Each command has a file of its own, with its text and its line,
//! and a file of definitions. In names and clauses, *words* are the arguments.
#![tactic(auto)]

mod answer;
mod calc;
mod check;
mod draw;
mod drawing;
mod drawn_tile;
mod drill;
mod file;
mod file_kind;
mod glue_edges;
mod layers;
mod looks;
mod neighbour;
mod picture;
mod place;
mod put_drawing;
mod rule_chosen;
pub mod run;
mod star;
mod summary;
mod tile;
mod tile_line;
mod verify;
mod walk;
mod whole_answer;
mod window;
