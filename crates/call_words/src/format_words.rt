//! Formats as arguments.
ghost use Rattle.std.specs.Prelude.{◌≡◌, ◌∷◌, ℕ, List, None, true, false};
ghost use Rattle.std.specs.Option.{option_map};
ghost use Rattle.call_words.specs.FormatWords.{format_text, format_named, is_among, formats_behind, formats_in};

use arrayvec::ArrayVec;
use layer_api::format::Format;

/// The greatest number of formats that may be named.
pub const MOST_FORMATS: usize = 3;

/// Returns the name of a format.
pub fn format_text(format: Format) -> &'static str
    ensures { result.now ≡ format_text format }
{
    match format {
        Format::Svg => "svg",
        Format::List => "list",
        Format::Census => "census",
    }
}

/// Returns the format that a text names.
fn format_named(text: &str) -> Option<Format>
    ensures { result ≡ format_named text.now }
{
    match text {
        "svg" => Some(Format::Svg),
        "list" => Some(Format::List),
        "census" => Some(Format::Census),
        _ => None,
    }
}

/// Returns true if the format is one of these.
pub fn is_among(format: Format, formats: &[Format]) -> bool
    ensures { result ≡ is_among format formats.now }
{
    for other in formats {
        if *other == format {
            return true;
        }
    }
    false
}

/// Appends the format that a piece of text names. Returns true if it names one, there is room for it, and it
/// is not there yet.
fn put_format(formats: &mut ArrayVec<Format, MOST_FORMATS>, piece: &str) -> bool
    ensures read { result ≡ true → (rest : List (List ℕ))
        → formats_behind formats.new.items rest ≡ formats_behind formats.old.items (piece.now ∷ rest) }
    ensures refused { result ≡ false → (rest : List (List ℕ))
        → formats_behind formats.old.items (piece.now ∷ rest) ≡ None }
{
    match format_named(piece) {
        Some(format) => !is_among(format, formats.as_slice()) && formats.try_push(format).is_ok(),
        None => false,
    }
}

/// Returns the formats that a text names: one to three different ones, with commas between them.
pub fn formats_in(text: &str) -> Option<ArrayVec<Format, MOST_FORMATS>>
    ensures { option_map (λ formats. formats.items) result ≡ formats_in text.now }
{
    let mut formats = ArrayVec::new();
    let mut rest = text;
    while let Some((piece, behind)) = rest.split_once(',') {
        if !put_format(&mut formats, piece) {
            return None;
        }
        rest = behind;
    }
    if !put_format(&mut formats, rest) {
        return None;
    }
    Some(formats)
}
