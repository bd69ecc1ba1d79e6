//! Writes a rule file.
ghost use Rattle.std.specs.Prelude.{◌≡◌, ◌≤◌, false, Ok, length, string_bytes, IfOk, IfErr};
ghost use Rattle.toml.specs.Text.{IsDocumentText};
ghost use Rattle.theory_edge_to_edge.specs.Limited.{WithinLimits};
ghost use Rattle.cyclo_points.specs.Order.{points_of};
ghost use Rattle.rule_model.specs.Small.{is_small};
ghost use Rattle.rule_model.specs.Views.{as_rule};
ghost use Rattle.rule_text.specs.File.{rule_in_file};
ghost use Rattle.rule_text.specs.Limits.{longest_file};
ghost use Rattle.rule_model.specs.Tiling.{listed};
ghost use Rattle.rule_text.specs.Written.{rule_members};

use crate::reading::read_rule;
use crate::text_fault::TextFault;
use crate::values;
use cyclo_points::order::Order;
use rule_model::edition::Edition;
use rule_model::rule::Rule;
use std::alloc::Global;
use tile_shape::no_memory::NoMemory;

/// Writes the text of a rule file. `read_rule` reads the text back as the rule.
///
/// The counts and numbers of the rule must be within the limits. A rule of edition 1 must not have order 6,
/// which format 1 lacks. Err means that memory ran out.
pub fn write_rule(alloc: Global, rule: &Rule) -> Result<String, NoMemory>
    requires within_limits { WithinLimits (points_of rule.now.order).order (is_small rule.now.order)
        (as_rule rule.now) }
    requires order_of_edition { rule.now.edition ≡ Edition.One → ¬ rule.now.order ≡ Order.Six }

    // The text is what `toml` prints for the document of the rule, with each array on one line.
    ensures printed { IfOk result (λ text. IsDocumentText false (rule_members (listed rule.now))
        (string_bytes text)) }
    ensures document { IfOk result (λ text. rule_in_file (string_bytes text) ≡ Ok (listed rule.now)) }

    // The limits keep every text short enough to be a rule file.
    ensures short { IfOk result (λ text. length (string_bytes text) ≤ longest_file) }
{
    let table = values::document(alloc, rule)?;
    match toml::table_to_string(alloc, &table) {
        Ok(text) => Ok(text),
        Err(_) => Err(NoMemory),
    }
}

/// Reads back the rule's own text, and returns the rule again. Fails only if memory runs out.
pub fn written_and_read(alloc: Global, rule: &Rule) -> Result<Rule, TextFault>
    requires within_limits { WithinLimits (points_of rule.now.order).order (is_small rule.now.order)
        (as_rule rule.now) }
    requires order_of_edition { rule.now.edition ≡ Edition.One → ¬ rule.now.order ≡ Order.Six }
    ensures same { IfOk result (λ back. listed back ≡ listed rule.now) }
    ensures memory { IfErr result (λ e. e ≡ TextFault.NoMemory) }
{
    let text = write_rule(alloc, rule)?;
    read_rule(alloc, text.as_bytes())
}
