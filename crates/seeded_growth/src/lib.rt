//! Growth at the coarse end: a seeded random stream chooses the next digit.
//!
//! Combinatorial coordinates (S. Tatham, Combinatorial coordinates for the aperiodic monotile) say nothing of
//! what is beyond the coarsest digit of an address. To choose further digits is to choose the tiling around
//! it. Here the choice is a function of the rule, the seed and the kind on top. Digit j is the use whose
//! number is output j, modulo the number of uses of the kind. Uses are ordered by parent, then by child. The
//! outputs are those of the PCG generator of the crate `rand_pcg`. Only `Growth::copy` can run out of memory.
#![tactic(auto)]

pub mod growth;
pub mod laws;
