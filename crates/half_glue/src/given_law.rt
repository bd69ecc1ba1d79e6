//! The law of the tiles that may be given.
ghost use Rattle.std.specs.Prelude.{◌^◌};
ghost use Rattle.cyclo_points.specs.Point.{IsWithin};
ghost use Rattle.rule_model.specs.Tiling.{Tiling};
ghost use Rattle.tile_place.specs.declared.placed_tile.PlacedTile as tile;
ghost use Rattle.theory_walks.specs.Frames.{FrameValue};
ghost use Rattle.lazy_walk.specs.Standing.{Stands};
ghost use Rattle.half_glue.specs.Given.{IsGiven};

/// States that a tile in its place at the frame's depth may be given, unless its shift is refused.
pub fn given_law()
    ensures { (t : Tiling) (f : FrameValue) (x : tile.PlacedTile) → Stands t f x
        → IsWithin (2 ^ 24) x.motion.shift → IsGiven t f x }
{}
