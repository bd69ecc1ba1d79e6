//! Walks through frames that grow: what stays the same of a tile, an edge, a path and an ancestor as digits
//! are appended at the coarse end.
//!
//! A frame is given by its base, its seed and its depth (S. Tatham's combinatorial coordinates, open at the
//! coarse end). A deeper frame has the same tiles in the same places, each with more digits. What is across
//! an edge stays across it, and an edge on the boundary at a depth is on it at each lesser depth. So a walk
//! finds the same tiles however often its frame has grown on the way. The crate stands on the tilings of
//! `rule_model` and on what `tile_place` says of edges. It has definitions and proofs, and no other code.
#![tactic(auto)]
