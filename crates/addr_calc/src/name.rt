//! Names.
ghost use Rattle.std.specs.Prelude.{◌≡◌, ◌<◌, option_map};
ghost use Rattle.addr_calc.specs.Printed.{letter};
ghost use Rattle.addr_calc.specs.Reading.{name_in_field};

/// A name: one letter from `a` to `z`, by its number from 0.
#[derive(Clone, Copy)]
pub struct Name {
    number: u8,
    ghost is_letter: { number < 26 },
}

impl Name {
    /// Returns the name that a field is, if it is one.
    pub fn named(word: &[u8]) -> Option<Name>
        ensures { option_map (λ name. name.number) result ≡ name_in_field word.now }
    {
        match word {
            [letter] if *letter >= b'a' && *letter <= b'z' => Some(Name {
                number: *letter - b'a',
            }),
            _ => None,
        }
    }

    /// Returns its number, 0 to 25.
    #[inline]
    pub fn number(self) -> usize
        ensures number { result ≡ self.number }
        ensures below_26 { result < 26 }
    {
        usize::from(self.number)
    }

    /// Returns its letter.
    #[inline]
    pub fn letter(self) -> u8
        ensures { result ≡ letter self.number }
    {
        b'a' + self.number
    }
}
