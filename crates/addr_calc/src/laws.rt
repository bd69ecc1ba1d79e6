//! The law of scripts: the function does nothing, and its contract is the law.
ghost use Rattle.std.specs.Prelude.{◌≡◌, ℕ, List};
ghost use Rattle.rule_model.specs.Tiling.{Tiling, children};
ghost use Rattle.tile_shape.specs.Usable.{AreUsable};
ghost use Rattle.addr_calc.specs.Script.{Outcome, IsOutcome};

use tile_shape::laws::{short_numbers_law, text_law};

/// States that a script has one outcome for a tiling: one text, or one fault.
pub fn one_answer_law()
    ensures { (t : Tiling) (script : List ℕ) (one other : Outcome) → AreUsable (children t)
        → IsOutcome t script one → IsOutcome t script other → one ≡ other }
{
    text_law();
    short_numbers_law();
}
