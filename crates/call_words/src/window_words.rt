//! Windows as arguments.
ghost use Rattle.std.specs.Prelude.{◌≡◌, ◌≤◌, ◌^◌, [], ◌∷◌, IfSome};
ghost use Rattle.cyclo_points.specs.Point.{Within, IsWithin};
ghost use Rattle.cyclo_points.specs.Text.{point_of_texts as point_by};
ghost use Rattle.call_words.specs.Commands.{windows_in};
ghost use Rattle.call_words.specs.WindowWords.{coefficient_in, extent_in, extents_of_pieces, at_in, half_in, FitWindow};

use cyclo_points::point::Point;
use tile_shape::decimal::read_number;

/// The greatest coefficient of a centre, in absolute value.
const MOST_COEFFICIENT: u64 = 1048576;

/// The greatest half-width or half-height.
const MOST_EXTENT: u64 = 4096;

/// The greatest number of windows of a drill.
const MOST_WINDOWS: u64 = 200;

/// The half-width and half-height of a window.
#[derive(Clone, Copy, Debug, PartialEq, Eq)]
pub struct HalfExtents {
    pub w: u16,
    pub h: u16,
}

/// A window as it is asked for: its centre, before it is reduced to the order, its half-width and its
/// half-height.
#[derive(Clone, Copy, Debug, PartialEq, Eq)]
pub struct WindowWords {
    pub at: Point,
    pub half: HalfExtents,
}

/// Reads a signed number, at most 2^20 in absolute value.
fn coefficient_in(text: &str) -> Option<i64>
    ensures number { result ≡ coefficient_in text.now }
    ensures within { IfSome result (Within (2 ^ 20)) }
{
    match text.as_bytes() {
        [b'-', figures @ ..] => match read_number(figures, MOST_COEFFICIENT)? {
            0 => None,
            number => Some(-(number as i64)),
        },
        [] => None,
        figures => Some(read_number(figures, MOST_COEFFICIENT)? as i64),
    }
}

/// Reads a half-width or half-height, from 1 to 4096.
fn extent_in(text: &str) -> Option<u16>
    ensures number { result ≡ extent_in text.now }
    ensures some { IfSome result (λ n. 1 ≤ n) }
    ensures at_most { IfSome result (λ n. n ≤ 4096) }
{
    match read_number(text.as_bytes(), MOST_EXTENT)? {
        0 => None,
        number => Some(number as u16),
    }
}

/// Reads the four coefficients of a point.
fn point_of_texts(first: &str, second: &str, third: &str, fourth: &str) -> Option<Point>
    ensures point { result ≡ point_by coefficient_in (first.now ∷ second.now ∷ third.now ∷ fourth.now ∷ []) }
    ensures within { IfSome result (λ p. IsWithin (2 ^ 20) p) }
{
    Some(Point {
        c: [
            coefficient_in(first)?,
            coefficient_in(second)?,
            coefficient_in(third)?,
            coefficient_in(fourth)?,
        ],
    })
}

/// Reads a point: four coefficients, with commas between them.
pub fn at_in(text: &str) -> Option<Point>
    ensures point { result ≡ at_in text.now }
    ensures within { IfSome result (λ p. IsWithin (2 ^ 20) p) }
{
    let (first, rest) = text.split_once(',')?;
    let (second, rest) = rest.split_once(',')?;
    let (third, fourth) = rest.split_once(',')?;
    point_of_texts(first, second, third, fourth)
}

/// Reads a half-width and a half-height.
fn extents_of_texts(width: &str, height: &str) -> Option<HalfExtents>
    ensures half { result ≡ extents_of_pieces (width.now ∷ height.now ∷ []) }
    ensures fit { IfSome result FitWindow }
{
    Some(HalfExtents {
        w: extent_in(width)?,
        h: extent_in(height)?,
    })
}

/// Reads a half-width and a half-height, with a comma between them.
pub fn half_in(text: &str) -> Option<HalfExtents>
    ensures half { result ≡ half_in text.now }
    ensures fit { IfSome result FitWindow }
{
    let (width, height) = text.split_once(',')?;
    extents_of_texts(width, height)
}

/// Reads a number of windows, from 1 to 200.
pub fn windows_in(text: &str) -> Option<u8>
    ensures number { result ≡ windows_in text.now }
    ensures some { IfSome result (λ n. 1 ≤ n) }
    ensures at_most { IfSome result (λ n. n ≤ 200) }
{
    match read_number(text.as_bytes(), MOST_WINDOWS)? {
        0 => None,
        number => Some(number as u8),
    }
}
