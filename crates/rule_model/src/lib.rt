//! Substitution rules as values, and accepted rules.
//!
//! A rule in the sense of Grünbaum and Shephard (Tilings and Patterns, chapter 10) inflates each prototile
//! and cuts the result into prototiles. [`Rule`](rule::Rule) holds the numbers of a rule.
//!
//! [`Checked`](checked::Checked) holds an accepted rule: one for which the ten clauses of acceptance hold. It
//! also has the contact tables that the rule's geometry gives, and its uses. Anyone who has one may rely on
//! all of these.
//!
//! Nothing here needs memory, and nothing is refused.
#![tactic(auto)]

pub mod checked;
pub mod child;
pub mod edition;
pub mod glued;
pub mod kind_row;
pub mod placing;
pub mod rule;
pub mod rule_parts;
pub mod small;
pub mod type_row;
