//! Addresses of tiles, as combinatorial coordinates, and contact tables (S. Tatham, Combinatorial coordinates
//! for the aperiodic monotile), without a ring and without a point of the plane.
//!
//! A tile of a supertile is named by its kind and, level by level from fine to coarse, by which child of
//! which parent it is. All that a crossing needs of a rule is a finite table.
//!
//! The crate defines addresses, contact tables and their coherence, the trace of an edge on its supertile's
//! own edge, touch, and the result of a crossing. It proves that over coherent tables an edge has one trace,
//! or touches exactly one pair, which touches it. It has definitions and proofs, and no other code. General
//! facts on lists, ranges and filters are here too, in `specs/Search` and `proofs/`.
#![tactic(auto)]
