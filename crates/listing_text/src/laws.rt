//! Laws of the lines of a text: each function here does nothing, and its contract is the law.
ghost use Rattle.std.specs.Prelude.{◌≡◌, ◌≢◌, ◌<◌, ℕ, List, [], ◌∷◌, ◌++◌, length, Ok};
ghost use Rattle.std.specs.List.{All};
ghost use Rattle.cyclo_points.specs.Text.{newline};
ghost use Rattle.tile_shape.specs.Usable.{AreUsable};
ghost use Rattle.listing_text.specs.Lines.{lines_in};
ghost use Rattle.listing_text.specs.Listing.{Entry, listing_in};
ghost use Rattle.listing_text.specs.Written.{entries_text, CanAllBeListed};

use tile_shape::laws::{read_back_law, short_numbers_law};

/// States that a newline ends a line, which contains none, and that what follows the last newline is a line
/// too, unless it is empty.
pub fn lines_law()
    ensures ended { (line rest : List ℕ) → All (λ byte. byte ≢ newline) line
        → lines_in (line ++ newline ∷ rest) ≡ line ∷ lines_in rest }
    ensures last { (line : List ℕ) → 0 < length line → All (λ byte. byte ≢ newline) line
        → lines_in line ≡ line ∷ [] }
{}

/// States that what is written of entries is read back: their lines are a list of exactly these entries, in
/// their order.
pub fn written_law()
    ensures { (children : List (List ℕ)) (entries : List Entry) → AreUsable children
        → CanAllBeListed children entries
        → listing_in children (entries_text entries) ≡ Ok entries }
{
    read_back_law();
    short_numbers_law();
}
