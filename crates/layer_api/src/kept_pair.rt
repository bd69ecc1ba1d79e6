//! The text of two numbers, kept for the next line that has them.
ghost use Rattle.std.specs.Prelude.{◌≡◌, ◌-◌, ◌≤◌, drop, IsTrue};
ghost use Rattle.layer_api.specs.KeptPair.{IsPairKept, pair_text};

/// Two numbers with their text, a comma after each, at the end of 32 bytes. If the length is 0, there is none.
#[derive(Clone, Copy, Drop)]
pub(crate) struct KeptPair {
    first: i64,
    second: i64,
    pub(crate) text: [u8; 32],
    pub(crate) length: usize,
}

impl KeptPair {
    /// Makes an empty place.
    pub(crate) fn none() -> KeptPair
        ensures { IsPairKept result }
    {
        KeptPair {
            first: 0,
            second: 0,
            text: [0; 32],
            length: 0,
        }
    }

    /// Returns true only if the text of these numbers is kept here.
    #[inline]
    pub(crate) fn has(&self, first: i64, second: i64) -> bool
        requires kept { IsPairKept self.now }
        ensures { IsTrue result → drop (32 - self.now.length) self.now.text ≡ pair_text first second }
    {
        self.length > 0 && self.first == first && self.second == second
    }

    /// Keeps the text of these numbers instead, unless it is too long.
    pub(crate) fn keep(&mut self, first: i64, second: i64, text: &[u8])
        requires kept { IsPairKept self.old }
        requires text { text.now ≡ pair_text first second }
        ensures { IsPairKept self.new }
    {
        if text.len() <= 32 {
            self.first = first;
            self.second = second;
            self.length = text.len();
            self.text[32 - text.len()..].copy_from_slice(text);
        }
    }
}
