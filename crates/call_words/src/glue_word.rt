//! The choice of whole tiles, as an argument.
ghost use Rattle.std.specs.Prelude.{◌≡◌};
ghost use Rattle.call_words.specs.Commands.{glue_in};

/// Returns true for `yes` and false for `no`.
pub fn glue_in(text: &str) -> Option<bool>
    ensures { result ≡ glue_in text.now }
{
    match text {
        "yes" => Some(true),
        "no" => Some(false),
        _ => None,
    }
}
