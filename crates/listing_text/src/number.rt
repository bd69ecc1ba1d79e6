//! Numbers in front of a mark.
ghost use Rattle.std.specs.Prelude.{◌≡◌, ◌≤◌, IfSome, option_map};
ghost use Rattle.tile_shape.specs.Decimal.{number_up_to};
ghost use Rattle.tile_shape.specs.Text.{comma};
ghost use Rattle.tile_shape.specs.Words.{first_by, texts_between};
ghost use Rattle.listing_text.specs.Limits.{most_shift};
ghost use Rattle.listing_text.specs.Signed.{signed_in};
ghost use Rattle.listing_text.specs.Views.{texts_behind};

/// The greatest coefficient of a shift, in absolute value.
const MOST_SHIFT: u32 = 16_777_216;

/// Returns the number before the first mark, if it is at most `most`, and the text after the mark, if there
/// is one. The number is `0`, or decimal digits of which the first is not `0`.
#[inline]
pub(crate) fn number_before(text: &[u8], mark: u8, most: u32) -> Option<(u32, Option<&[u8]>)>
    requires small { most ≤ most_shift }
    ensures at_most { IfSome result (λ found. found.0 ≤ most) }
    ensures exact { option_map (λ found. (found.0, texts_behind mark found.1)) result ≡ first_by
        (number_up_to most) (texts_between mark text.now) }
{
    let mut number: u32 = 0;
    for (place, byte) in text.iter().enumerate() {
        if *byte == mark {
            if place == 0 {
                return None;
            }
            return Some((number, Some(&text[place + 1..])));
        }
        if !byte.is_ascii_digit() || (number == 0 && place > 0) {
            return None;
        }
        number = 10 * number + u32::from(*byte - b'0');
        if number > most {
            return None;
        }
    }
    if text.is_empty() {
        return None;
    }
    Some((number, None))
}

/// Returns the signed number before the first comma, and the text after the comma, if there is one. It is a
/// number, or `-` and a number other than 0.
#[inline]
pub(crate) fn signed_before_comma(text: &[u8]) -> Option<(i64, Option<&[u8]>)>
    ensures { option_map (λ found. (found.0, texts_behind comma found.1)) result ≡ first_by signed_in
        (texts_between comma text.now) }
{
    if let [b'-', figures @ ..] = text {
        let (number, rest) = number_before(figures, b',', MOST_SHIFT)?;
        if number == 0 {
            return None;
        }
        return Some((-i64::from(number), rest));
    }
    let (number, rest) = number_before(text, b',', MOST_SHIFT)?;
    Some((i64::from(number), rest))
}
