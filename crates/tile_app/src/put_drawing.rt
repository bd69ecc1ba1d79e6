//! Puts the tiles of a window into a layer.
ghost use Rattle.std.specs.Prelude.{All, map, OnOk};
ghost use Rattle.rule_model.specs.Tiling.{tiling_of};
ghost use Rattle.tile_app.specs.Drawings.{tiles_drawn, CanBeShown, Suits};
ghost use Rattle.tile_app.specs.DrawnTile.{drawn_of, CanBeDrawn};
ghost use Rattle.tile_app.specs.Looks.{HasPut};
ghost use Rattle.tile_app.specs.Pictured.{picture_of, CanBePictured};
ghost use Rattle.tile_app.specs.Putting.{CanTake, HasTaken};

use crate::drawing::Drawing;
use crate::drawn_tile::stand_in;
use crate::looks::Looks;
use crate::picture::Picture;
use layer_api::layer::Layer;
use tile_place::machine::Machine;
use tile_shape::no_memory::NoMemory;
use window_cover::found_tiles::FoundTiles;

/// Puts a drawing into a layer, as far as it looks at it.
pub fn put_drawing<D: Layer>(
    layer: &mut D,
    looks: Looks,
    machine: &Machine,
    drawing: &Drawing,
) -> Result<(), NoMemory>
    requires takes { CanTake D.seen D.begun D.ended D.draws machine.now.order layer.old }
    requires can { CanBeShown (tiling_of machine.now) drawing.now }
    requires suits { Suits looks drawing.now }
    ensures put { OnOk result (HasPut (D.draws layer.new) looks
        (tiles_drawn (tiling_of machine.now) drawing.now)) }
    ensures taken { HasTaken D.form D.seen D.begun D.ended layer.old layer.new }
{
    match drawing {
        Drawing::Found(tiles) => put_classes(layer, machine, tiles),
        Drawing::InOrder(picture) => put_tiles(layer, looks, machine, picture),
    }
}

/// Puts the tiles of a picture into a layer, as far as it looks at them.
fn put_tiles<D: Layer>(
    layer: &mut D,
    looks: Looks,
    machine: &Machine,
    picture: &Picture,
) -> Result<(), NoMemory>
    requires takes { CanTake D.seen D.begun D.ended D.draws machine.now.order layer.old }
    requires can { CanBePictured (tiling_of machine.now) picture.now }
    ensures put { OnOk result (HasPut (D.draws layer.new) looks
        (picture_of (tiling_of machine.now) picture.now)) }
    ensures taken { HasTaken D.form D.seen D.begun D.ended layer.old layer.new }
{
    let mut drawn = stand_in();
    for place in 0..picture.len() {
        picture.put(&mut drawn, looks, machine, place);
        layer.put_copy(&drawn)?;
    }
    Ok(())
}

/// Puts a tile for each tile found into a layer that looks at classes alone, class by class.
fn put_classes<D: Layer>(
    layer: &mut D,
    machine: &Machine,
    tiles: &FoundTiles,
) -> Result<(), NoMemory>
    requires takes { CanTake D.seen D.begun D.ended D.draws machine.now.order layer.old }
    requires can { All (CanBeDrawn (tiling_of machine.now)) tiles.now }
    ensures put { OnOk result (HasPut (D.draws layer.new) Looks.Classes
        (map (drawn_of (tiling_of machine.now)) tiles.now)) }
    ensures taken { HasTaken D.form D.seen D.begun D.ended layer.old layer.new }
{
    let counts = tiles.counts();
    let mut drawn = stand_in();
    let kinds = machine.checked().rule().kind_count();
    for class in 0..kinds as u8 {
        drawn.class = class;
        layer.put_many(&drawn, counts[usize::from(class)])?;
    }
    Ok(())
}
