//! Small numbers as arguments.
ghost use Rattle.std.specs.Prelude.{◌≡◌};
ghost use Rattle.tile_shape.specs.Decimal.{number_up_to};

use tile_shape::decimal::read_number;

/// Reads a number from 0 to `most`. Returns None for any other text.
pub fn small_number(text: &[u8], most: u8) -> Option<u8>
    ensures { result ≡ number_up_to most text.now }
{
    let number = read_number(text, u64::from(most))?;
    u8::try_from(number).ok()
}
