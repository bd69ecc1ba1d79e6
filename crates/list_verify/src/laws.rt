//! Laws of listings: the function here does nothing, and its contract is the law.
ghost use Rattle.list_verify.specs.OneVerdict.{OneVerdictLaw};

use crate::list_laws::list_laws;
use cyclo_points::order::Order;
use seeded_growth::laws::grown_fits_law;

/// States that a list of a window, on a frame of an accepted rule, has one verdict. A right list has one
/// number of lines and no fault. Two faults that have a cause are the same, or both end the walk. If a tile
/// is missing, the list is not right, and has no fault of its text or its addresses and no stray line.
pub fn one_verdict_law(order: Order)
    ensures { OneVerdictLaw order }
{
    list_laws(order);
    grown_fits_law();
}
