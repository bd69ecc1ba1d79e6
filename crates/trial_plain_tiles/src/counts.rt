//! Counts of successful and of failed trials.

/// How many trials succeeded, and how many failed.
#[derive(Clone, Copy, Debug, Default, PartialEq, Eq)]
pub struct Counts {
    pub right: u32,
    pub differ: u32,
}

impl Counts {
    /// Counts one trial more.
    pub fn count(&mut self, is_right: bool) {
        if is_right {
            self.right = self.right.saturating_add(1);
        } else {
            self.differ = self.differ.saturating_add(1);
        }
    }

    /// Adds the counts of other trials.
    pub fn add(&mut self, other: Counts) {
        self.right = self.right.saturating_add(other.right);
        self.differ = self.differ.saturating_add(other.differ);
    }
}
