//! The law of the parts of whole tiles.
ghost use Rattle.rule_model.specs.Tiling.{tiling_of};
ghost use Rattle.half_glue.specs.Parts.{PartsWithinLaw};

use crate::glue_laws::glue_laws;
use tile_place::machine::Machine;

/// States that no part of whole tiles has a refused shift, if the tiles can be glued.
pub fn parts_law(machine: &Machine)
    ensures { PartsWithinLaw (tiling_of machine.now) }
{
    glue_laws(machine);
}
