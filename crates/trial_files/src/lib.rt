//! Trials of `rule_text` on rows of files, with values typed from outside.
//!
//! They have each key with each fault, faults whose order matters, hostile files, files with many dots, and
//! the chair both ways. There is no other code here.
#![tactic(auto)]

#[cfg(test)]
mod chair_rule;
#[cfg(test)]
mod editions;
#[cfg(test)]
mod faults;
#[cfg(test)]
mod files;
#[cfg(test)]
mod heads;
#[cfg(test)]
mod hostile;
#[cfg(test)]
mod kinds;
#[cfg(test)]
mod types;
#[cfg(test)]
mod wrong;
