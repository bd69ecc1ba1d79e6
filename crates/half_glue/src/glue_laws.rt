//! The laws that gluing needs.
ghost use Rattle.half_glue.specs.Checked.{HasGlueLaws};

use cyclo_points::points_law;
use seeded_growth::laws::grown_fits_law;
use theory_dissection::laws::{across_law, boundary_law, crossing_law};
use theory_windows::frame_laws::frame_name_law;
use tile_place::machine::Machine;

/// The laws of the machine's tiling that gluing needs.
pub(crate) fn glue_laws(machine: &Machine)
    ensures { HasGlueLaws machine.now }
{
    grown_fits_law();
    let checked = machine.checked();
    let order = checked.order();
    points_law(order);
    across_law(order);
    boundary_law(order);
    crossing_law(order);
    frame_name_law(order);
    let _usable = checked.uses().kinds();
}
