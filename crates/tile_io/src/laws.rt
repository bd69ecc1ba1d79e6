//! The laws of taking, giving and counting.
ghost use Rattle.tile_io.specs.Causes.{CausesInTurn};
ghost use Rattle.tile_io.specs.Left.{GivenInTurn};
ghost use Rattle.tile_io.specs.Taken.{TakenInTurn};

/// States that two pieces taken one after another are one piece taken.
pub fn taken_in_turn_law()
    ensures { TakenInTurn }
{}

/// States that two pieces given one after another are one piece given.
pub fn given_in_turn_law()
    ensures { GivenInTurn }
{}

/// States that a fault in either of two calls is one in both together.
pub fn causes_in_turn_law()
    ensures { CausesInTurn }
{}
