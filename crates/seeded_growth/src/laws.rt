//! Laws of growth: each function here does nothing, and its contract is the law.
ghost use Rattle.std.specs.Prelude.{◌≡◌, ◌+◌, ℕ, List, [], ◌∷◌, ◌++◌, map};
ghost use Rattle.theory_addresses.specs.Address.{Address, Fits, top_kind};
ghost use Rattle.theory_frames.specs.Growth.{chosen, grown_by};
ghost use Rattle.tile_shape.specs.Usable.{AreUsable};
ghost use Rattle.tile_shape.specs.UsesInOrder.{uses_in_order};
ghost use Rattle.seeded_growth.specs.Words.{word};

use tile_shape::laws::uses_law;

/// States that an address that fits a table still fits with grown digits, whatever the seed.
pub fn grown_fits_law()
    ensures { (children : List (List ℕ)) (base : Address) (start n : ℕ) →
        AreUsable children → Fits children base → Fits children
        (grown_by (uses_in_order children) (word start) n base) }
{
    uses_law();
}

/// States that one more grown digit is the one that the next output chooses on the kind then on top. So the
/// digits are the same however growth is divided into steps.
pub fn next_digit_law()
    ensures { (children : List (List ℕ)) (base : Address) (start n : ℕ) →
        (grown_by (uses_in_order children) (word start) (n + 1) base).digits
        ≡ (grown_by (uses_in_order children) (word start) n base).digits
        ++ chosen (uses_in_order children (top_kind
        (grown_by (uses_in_order children) (word start) n base))) (word start n) ∷ [] }
{}

/// States that the outputs are those of the reference generator: the first six of seed 42.
pub fn reference_words_law()
    ensures { map (word 42) (0 ∷ 1 ∷ 2 ∷ 3 ∷ 4 ∷ 5 ∷ []) ≡ 0xa15c02b7 ∷ 0x7b47f409 ∷ 0xba1d3330 ∷ 0x83d2f293
        ∷ 0xbfa4784b ∷ 0xcbed606e ∷ [] }
{}
