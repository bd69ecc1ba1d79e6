//! Trials of placing, crossing, gluing, walking, searching and turning around vertices, on the built-in
//! rules.
//!
//! What the machine returns is compared with rows that were worked out by hand, and with lists. A list of a
//! whole supertile has each edge of each tile by its ends. Each listed tile is placed by its address, and
//! tested against points, windows and vertices. Addresses of 64 digits are crossed, and decided in pairs.
//! Walks are followed there and back, and the search for a window is tried step by step. There is no other
//! code here.
#![tactic(auto)]

#[cfg(test)]
mod contain;
#[cfg(test)]
mod covered;
#[cfg(test)]
mod drawn_windows;
#[cfg(test)]
mod far;
#[cfg(test)]
mod given;
#[cfg(test)]
mod glued;
#[cfg(test)]
mod held_points;
#[cfg(test)]
mod located;
#[cfg(test)]
mod pairs;
#[cfg(test)]
mod placed;
#[cfg(test)]
mod sides;
#[cfg(test)]
mod stars;
#[cfg(test)]
mod steps;
#[cfg(test)]
mod supertiles;
#[cfg(test)]
mod touching;
#[cfg(test)]
mod two_ways;
#[cfg(test)]
mod walks;
#[cfg(test)]
mod whole_tiles;
#[cfg(test)]
mod window_wholes;
#[cfg(test)]
mod worked_out;
#[cfg(test)]
mod wrong;
