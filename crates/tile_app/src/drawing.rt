//! What is drawn of a window, put in order only if a layer needs it.
ghost use Rattle.std.specs.Prelude.{◌≡◌, IfOk};
ghost use Rattle.rule_model.specs.Tiling.{Tiling};
ghost use Rattle.tile_app.specs.Drawings.{tiles_drawn, CanBeShown, Suits};

use crate::looks::Looks;
use crate::picture::Picture;
use tile_shape::no_memory::NoMemory;
use window_cover::found_tiles::FoundTiles;

/// What is drawn of a window.
#[derive(Drop)]
pub enum Drawing {
    /// Its tiles, each alone, as they were found.
    Found(FoundTiles),
    /// Its tiles or whole tiles, in order.
    InOrder(Picture),
}

impl Drawing {
    /// Puts the tiles in order, unless the next layer looks at their classes alone. Err if memory runs out.
    pub fn suited(self, looks: Looks) -> Result<Drawing, NoMemory>
        ensures same { IfOk result (λ later. (t : Tiling) → tiles_drawn t later ≡ tiles_drawn t self) }
        ensures can { IfOk result (λ later. (t : Tiling) → CanBeShown t self → CanBeShown t later) }
        ensures suits { IfOk result (Suits looks) }
    {
        match looks {
            Looks::Classes => Ok(self),
            _ => self.in_order(),
        }
    }

    /// Puts the tiles in order. Err if memory runs out.
    fn in_order(self) -> Result<Drawing, NoMemory>
        ensures same { IfOk result (λ later. (t : Tiling) → tiles_drawn t later ≡ tiles_drawn t self) }
        ensures can { IfOk result (λ later. (t : Tiling) → CanBeShown t self → CanBeShown t later) }
        ensures suits { IfOk result (λ later. (looks : Looks) → Suits looks later) }
    {
        match self {
            Drawing::Found(tiles) => {
                let tiles = tiles.in_order()?;
                Ok(Drawing::InOrder(Picture::Tiles(tiles)))
            }
            Drawing::InOrder(picture) => Ok(Drawing::InOrder(picture)),
        }
    }
}
