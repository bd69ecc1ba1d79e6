//! The rules that are built in, by name: the chair, Penrose's rhombs, his kites and darts, the rhombs and
//! squares of Ammann and Beenker, and the half-hex. All are in Grünbaum and Shephard, Tilings and Patterns,
//! chapter 10.
//!
//! - The chair is an L of three squares, which is cut into four chairs.
//! - Penrose's rhombs, kites and darts come as halves, and so do the squares of Ammann and Beenker.
//! - The half-hex is half of a hexagon, which is cut into four half-hexes.
//!
//! Each rule is a definition, with its edition, its order and its numbers. `rule_of` makes the rule of a
//! name, with exactly these numbers. `builtin` returns it as an accepted rule, with its contact tables and
//! its uses.
//!
//! The numbers in the program are constants, with one rule a file and the contact tables next to the kinds.
//! Evaluation proves three things: the constants are those of the definition, the tables are those of its
//! geometry, and the ten clauses of acceptance hold. So a built-in rule is never refused; only memory may run
//! out.
#![tactic(auto)]

mod ammann_beenker;
pub mod builtin;
mod chair;
mod contacts;
mod half_hex;
mod kind_numbers;
pub mod laws;
pub mod name;
mod notation;
mod p2;
mod p3;
pub mod placing;
mod rule_numbers;
mod rules;
mod type_numbers;
