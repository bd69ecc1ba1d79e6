//! What a layer must do.
ghost use Rattle.std.specs.Prelude.{◌≡◌, ℕ, ◌≤◌, Bool, List, [], ◌∷◌, ◌++◌, replicate, true, false, OnOk, OnErr, IsTrue, IsFalse, ◌↔◌};
ghost use Rattle.layer_api.specs.declared.drawn.Drawn.{Drawn};
ghost use Rattle.layer_api.specs.declared.format.Format.{Format};
ghost use Rattle.layer_api.specs.declared.view.View.{View};
ghost use Rattle.layer_api.specs.Drawable.{IsView, IsDrawable};
ghost use Rattle.layer_api.specs.LayerText.{layer_text};

use crate::drawn::Drawn;
use crate::format::Format;
use crate::view::View;
use tile_shape::no_memory::NoMemory;

/// Writes the tiles of a view in its format. A layer begins with a view, takes the tiles one after another,
/// and ends; from then on it has the text. It may begin again at any time.
pub trait Layer: Drop {
    // The format. No call changes it.
    ghost form: { Self → Format };

    // The view with which it began.
    ghost seen: { Self → View };

    // True if it has begun, and true if it has ended since.
    ghost begun: { Self → Bool };

    ghost ended: { Self → Bool };

    // True of the list of tiles put since it began, in order, as far as the text depends on them. A layer
    // that keeps its text, and not its tiles, draws each list that has this text.
    ghost draws: { Self → List Drawn → Type 0 };

    // True if it must get all that its tiles have. So it is if a layer says nothing.
    ghost needs_all: { Self → Bool } = { λ _. true };

    /// Returns the format.
    fn format(&self) -> Format
        ensures { result ≡ form self.now };

    /// Returns true if the layer looks at all that its tiles have. Otherwise it looks only at what its
    /// format's text depends on, and all else may be anything. An SVG depends on the classes and outlines,
    /// a list on the parts, and a census on the number of tiles of each class.
    fn looks_at_all(&self) -> bool
        ensures { IsTrue (needs_all self.now) → IsTrue result }
    {
        true
    }

    /// Begins with this view and no tiles. Needs no memory.
    fn begin(&mut self, view: View)
        requires { IsView view }
        ensures seen { seen self.new ≡ view }
        ensures draws { draws self.new [] }
        ensures begun { IsTrue (begun self.new) }
        ensures open { IsFalse (ended self.new) }
        ensures form { form self.new ≡ form self.old };

    /// Adds a tile at the end of the list. If memory runs out, nothing changes.
    fn put(&mut self, tile: Drawn) -> Result<(), NoMemory>
        requires begun { IsTrue (begun self.old) }
        requires open { IsFalse (ended self.old) }
        requires drawable { IsDrawable (seen self.old).order tile }
        ensures ok { OnOk result ((tiles : List Drawn) → draws self.old tiles
            → draws self.new (tiles ++ tile ∷ [])) }
        ensures err { OnErr result ((tiles : List Drawn) → draws self.old tiles → draws self.new tiles) }
        ensures seen { seen self.new ≡ seen self.old }
        ensures begun { IsTrue (begun self.new) }
        ensures open { IsFalse (ended self.new) }
        ensures form { form self.new ≡ form self.old };

    /// Adds a copy of a tile at the end of the list. For a caller that keeps the tile, and changes it into
    /// the next one. A layer that only reads its tiles needs no copy. If memory runs out, nothing changes.
    fn put_copy(&mut self, tile: &Drawn) -> Result<(), NoMemory>
        requires begun { IsTrue (begun self.old) }
        requires open { IsFalse (ended self.old) }
        requires drawable { IsDrawable (seen self.old).order tile.now }
        ensures ok { OnOk result ((tiles : List Drawn) → draws self.old tiles
            → draws self.new (tiles ++ tile.now ∷ [])) }
        ensures err { OnErr result ((tiles : List Drawn) → draws self.old tiles → draws self.new tiles) }
        ensures seen { seen self.new ≡ seen self.old }
        ensures begun { IsTrue (begun self.new) }
        ensures open { IsFalse (ended self.new) }
        ensures form { form self.new ≡ form self.old }
    {
        self.put(tile.copy())
    }

    /// Adds a number of copies of a tile at the end of the list. A layer that only counts its tiles needs no
    /// call for each. If memory runs out, some of them may have been added.
    fn put_many(&mut self, tile: &Drawn, count: u32) -> Result<(), NoMemory>
        requires begun { IsTrue (begun self.old) }
        requires open { IsFalse (ended self.old) }
        requires drawable { IsDrawable (seen self.old).order tile.now }
        ensures ok { OnOk result ((tiles : List Drawn) → draws self.old tiles
            → draws self.new (tiles ++ replicate count tile.now)) }
        ensures err { OnErr result ((some : ℕ) × (some ≤ count) × ((tiles : List Drawn)
            → draws self.old tiles → draws self.new (tiles ++ replicate some tile.now))) }
        ensures seen { seen self.new ≡ seen self.old }
        ensures begun { IsTrue (begun self.new) }
        ensures open { IsFalse (ended self.new) }
        ensures form { form self.new ≡ form self.old }
    {
        for _number in 0..count {
            self.put_copy(tile)?;
        }
        Ok(())
    }

    /// Ends, and makes the text. If memory runs out, the layer has not ended, and its tiles are as before.
    fn end(&mut self) -> Result<(), NoMemory>
        requires begun { IsTrue (begun self.old) }
        requires open { IsFalse (ended self.old) }
        ensures tiles { (tiles : List Drawn) → draws self.old tiles → draws self.new tiles }
        ensures seen { seen self.new ≡ seen self.old }
        ensures begun { IsTrue (begun self.new) }
        ensures ok { OnOk result (IsTrue (ended self.new)) }
        ensures err { OnErr result (IsFalse (ended self.new)) }
        ensures form { form self.new ≡ form self.old };

    /// Returns the text, once the layer has ended.
    fn bytes(&self) -> &[u8]
        requires { IsTrue (ended self.now) }
        ensures { (tiles : List Drawn) → draws self.now tiles
            → result.now ≡ layer_text (form self.now) (seen self.now) tiles };
}
