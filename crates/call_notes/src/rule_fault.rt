//! Why a rule file is refused.
use dissect_check::check_fault::CheckFault;
use rule_text::text_fault::TextFault;

/// Why a rule file is refused: the first fault of its text, or the first of the ten clauses that its rule
/// fails.
#[derive(Clone, Copy, Debug, PartialEq, Eq)]
pub enum RuleFault {
    /// The text does not stand for a rule.
    Text(TextFault),
    /// The rule is not accepted.
    Check(CheckFault),
}
