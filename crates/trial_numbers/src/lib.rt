//! Trials of the crates below the rules: points and numbers of the plane, addresses, and bytes in and out.
//!
//! They try each public call of `cyclo_points`, `plane_geom`, `tile_shape` and `tile_io`. The values were
//! worked out by hand or taken from the literature, to test that the contracts mean what they should. There
//! is no other code here.
#![tactic(auto)]

#[cfg(test)]
mod addresses;
#[cfg(test)]
mod numbers;
#[cfg(test)]
mod plane;
#[cfg(test)]
mod points;
#[cfg(test)]
mod sizes;
#[cfg(test)]
mod streams;
#[cfg(test)]
mod wrong;
