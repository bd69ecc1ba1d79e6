//! Trials of the crates that check rules and cross edges, and of the built-in rules. There are rules of the
//! literature and rules with one fault, contact tables written by hand, and tiles across an edge.
//!
//! They try each public call of `edge_tables`, `transducer_core`, `rule_model`, `dissect_check` and
//! `builtin_rules`. The values were worked out by hand or taken from the literature, to test that the
//! contracts mean what they should. There is no other code here.
#![tactic(auto)]

#[cfg(test)]
mod agreement;
#[cfg(test)]
mod crossings;
#[cfg(test)]
mod described;
#[cfg(test)]
mod editions;
#[cfg(test)]
mod given;
#[cfg(test)]
mod nested;
#[cfg(test)]
mod numbers;
#[cfg(test)]
mod printed;
#[cfg(test)]
mod refused;
#[cfg(test)]
mod shapes;
#[cfg(test)]
mod wrong;
