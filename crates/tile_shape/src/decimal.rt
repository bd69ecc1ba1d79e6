//! Decimal numbers in texts.
ghost use Rattle.std.specs.Prelude.{◌≡◌};
ghost use Rattle.tile_shape.specs.Decimal.{is_figure, begins_right, number_up_to};

/// Reads a decimal number: `0`, or digits of which the first is not `0`. Returns None for any other text, and
/// for a number above `most`.
pub fn read_number(text: &[u8], most: u64) -> Option<u64>
    ensures { result ≡ number_up_to most text.now }
{
    if !begins_right(text) {
        return None;
    }
    let mut number: u128 = 0;
    for byte in text {
        if !is_figure(*byte) {
            return None;
        }
        number = 10 * number + u128::from(*byte - b'0');
        if number > u128::from(most) {
            return None;
        }
    }
    Some(number as u64)
}

/// Returns true if the text has a first digit, and this is not `0` unless it is the only one.
fn begins_right(text: &[u8]) -> bool
    ensures { result ≡ begins_right text.now }
{
    match text {
        [] => false,
        [_] => true,
        [first, ..] => *first != b'0',
    }
}

/// Returns true if the byte is one of `0` to `9`.
pub(crate) fn is_figure(byte: u8) -> bool
    ensures { result ≡ is_figure byte }
{
    byte >= b'0' && byte <= b'9'
}
