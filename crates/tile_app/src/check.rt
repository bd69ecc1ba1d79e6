//! The command `check`: that a rule is accepted.
ghost use Rattle.std.specs.Prelude.{◌≡◌, IfOk, string_bytes};
ghost use Rattle.rule_model.specs.Tiling.{tiling_of};
ghost use Rattle.tile_app.specs.Check.{check_line};

use rule_model::checked::Checked;
use std::alloc::{AllocError, Global};

/// Returns what `check` prints for an accepted rule: its order, its number of kinds, and its number of edge
/// types.
pub fn check_text(alloc: Global, checked: &Checked) -> Result<String, AllocError>
    ensures { IfOk result (λ text. string_bytes text ≡ check_line (tiling_of checked.now)) }
{
    let rule = checked.rule();
    let order = rule.order.n();
    let kinds = rule.kind_count();
    let types = rule.type_count();
    format!(in alloc; "accepted order {order} kinds {kinds} types {types}\n")
}
