//! The laws on which the walk rests.
ghost use Rattle.cyclo_points.specs.Order.{points_of};
ghost use Rattle.list_verify.specs.ListLaws.{HasListLaws, HasWalkLaws};

use cyclo_points::order::Order;
use seeded_growth::laws::grown_fits_law;
use theory_listings::{frame_walk_law, right_listing_law, walk_fault_law};
use theory_windows::frame_laws::frame_crossing_law;
use tile_place::machine::Machine;
use window_cover::search_laws::search_laws;

/// States the laws of the walk, for the points of each order: those of the search, and its own.
pub(crate) fn list_laws(order: Order)
    ensures { HasListLaws (points_of order) }
{
    search_laws(order);
    frame_crossing_law(order);
    frame_walk_law(order);
    walk_fault_law(order);
    right_listing_law(order);
}

/// States what a machine's rule and those laws bring to a walk.
pub(crate) fn walk_laws(machine: &Machine)
    ensures { HasWalkLaws machine.now }
{
    let checked = machine.checked();
    list_laws(checked.order());
    grown_fits_law();
    let _usable = checked.uses().kinds();
}
