//! The editions of rules.

/// The edition of a rule. It decides which orders and inflation factors the rule may have.
#[derive(Clone, Copy, Debug, PartialEq, Eq)]
pub enum Edition {
    /// Real factors greater than 1, in the orders 4, 8 and 10. A rule file has `format = 1`.
    One,
    /// Factors of squared length above 1, which may turn the plane, in the orders 4, 6, 8 and 10. A rule file
    /// has `format = 2`.
    Two,
}
