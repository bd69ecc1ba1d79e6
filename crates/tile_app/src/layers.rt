//! The layers of the caller.
ghost use Rattle.std.specs.Prelude.{◌≡◌, ◌<◌, IfSome, is_some, length, map, position, slice_get};
ghost use Rattle.call_words.specs.FormatWords.{same_format, is_among, first_lacking};

use layer_api::format::Format;
use layer_api::layer::Layer;

/// Returns the place of the first layer with a format, if there is one.
pub fn place_of<D: Layer>(layers: &[D], format: Format) -> Option<usize>
    ensures first { result ≡ position (λ f. same_format f format) (map D.form layers.now) }
    ensures some { is_some result ≡ is_among format (map D.form layers.now) }
    ensures inside { IfSome result (λ i. i < length layers.now) }
    ensures its_form { IfSome result (λ i. IfSome (slice_get layers.now i) (λ d. D.form d ≡ format)) }
{
    for place in 0..layers.len() {
        if layers[place].format() == format {
            return Some(place);
        }
    }
    None
}

/// Returns the first of these formats that no layer has.
pub fn first_lacking<D: Layer>(layers: &[D], named: &[Format]) -> Option<Format>
    ensures { result ≡ first_lacking (map D.form layers.now) named.now }
{
    for format in named {
        if place_of(layers, *format).is_none() {
            return Some(*format);
        }
    }
    None
}
