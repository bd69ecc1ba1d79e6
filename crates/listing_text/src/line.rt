//! The fields of a line.
ghost use Rattle.std.specs.Prelude.{◌≡◌, ◌<◌, [], ◌∷◌, length, IfSome, IfNone};
ghost use Rattle.cyclo_points.specs.Text.{blank};
ghost use Rattle.tile_shape.specs.Words.{texts_between};
ghost use Rattle.listing_text.specs.Signed.{shift_in};
ghost use Rattle.listing_text.specs.Words.{listed_motion};
ghost use Rattle.listing_text.specs.Views.{texts_behind, AnswersPlaced};

use crate::number::{number_before, signed_before_comma};
use cyclo_points::motion::Motion;
use cyclo_points::point::Point;

/// The first three fields of a line, and the rest after a blank, if there is one.
#[derive(Clone, Copy)]
pub(crate) struct Placed<'a> {
    pub(crate) kind: u8,
    pub(crate) motion: Motion,
    pub(crate) left: Option<&'a [u8]>,
}

/// Returns the text before the first mark of a short text, and the text after the mark, if there is one.
#[inline]
pub(crate) fn cut(text: &[u8], mark: u8) -> (&[u8], Option<&[u8]>)
    ensures texts { texts_between mark text.now ≡ result.0.now ∷ texts_behind mark result.1 }
    ensures shorter { IfSome result.1 (λ rest. length rest.now < length text.now) }
    ensures whole { IfNone result.1 (result.0.now ≡ text.now) }
{
    for place in 0..text.len() {
        if text[place] == mark {
            return (&text[..place], Some(&text[place + 1..]));
        }
    }
    (text, None)
}

/// Returns the shift of a text: four signed numbers joined by commas.
fn shift_in(text: &[u8]) -> Option<Point>
    ensures { result ≡ shift_in text.now }
{
    let (a, left) = signed_before_comma(text)?;
    let (b, left) = signed_before_comma(left?)?;
    let (c, left) = signed_before_comma(left?)?;
    let (d, left) = signed_before_comma(left?)?;
    match left {
        Some(_) => None,
        None => Some(point_of(a, b, c, d)),
    }
}

/// Returns the point of four coefficients.
#[inline]
fn point_of(a: i64, b: i64, c: i64, d: i64) -> Point
    ensures { result ≡ record { c = a ∷ b ∷ c ∷ d ∷ [] } }
{
    Point { c: [a, b, c, d] }
}

/// Returns the kind, the turn and the shift of a line, and the rest. Err has the position of the first field
/// that is malformed or missing.
#[tactic(auto, unfolding(crate::specs::Words::listed_motion))]
pub(crate) fn listed_motion(line: &[u8]) -> Result<Placed<'_>, u8>
    ensures { AnswersPlaced result (listed_motion (texts_between blank line.now)) }
{
    let (kind, left) = number_before(line, b' ', 255).ok_or(0)?;
    let (turn, left) = number_before(left.ok_or(1)?, b' ', 255).ok_or(1)?;
    let (word, left) = cut(left.ok_or(2)?, b' ');
    let shift = shift_in(word).ok_or(2)?;
    Ok(Placed {
        kind: kind as u8,
        motion: Motion {
            turn: turn as u8,
            shift,
        },
        left,
    })
}
