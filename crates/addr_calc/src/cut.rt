//! A text cut at its first mark.
ghost use Rattle.std.specs.Prelude.{◌≡◌, ◌<◌, ◌∷◌, length, IfSome, option_map};
ghost use Rattle.tile_shape.specs.Words.{texts_between};
ghost use Rattle.addr_calc.specs.Views.{parts_behind};

/// Returns what precedes the first mark, and what follows it, if there is one.
#[inline]
pub fn cut(text: &[u8], mark: u8) -> (&[u8], Option<&[u8]>)
    ensures parts { texts_between mark text.now ≡ result.0.now
        ∷ parts_behind mark (option_map (λ rest. rest.now) result.1) }
    ensures shorter { IfSome result.1 (λ rest. length rest.now < length text.now) }
{
    for (place, byte) in text.iter().enumerate() {
        if *byte == mark {
            return (&text[..place], Some(&text[place + 1..]));
        }
    }
    (text, None)
}
