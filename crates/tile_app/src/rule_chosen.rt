//! The rule that is chosen, accepted.
ghost use Rattle.std.specs.Prelude.{◌≡◌, ◌≤◌, false, length, Ok, IfOk, IfErr, IsErrOf};
ghost use Rattle.rule_model.specs.Tiling.{tiling_of};
ghost use Rattle.rule_text.specs.Limits.{longest_file};
ghost use Rattle.tile_io.specs.Causes.{Rose};
ghost use Rattle.tile_app.specs.Choices.{is_file};
ghost use Rattle.tile_app.specs.Reading.{IsFileRefused, IsRuleRead, IsRuleRefused};
ghost use Rattle.tile_app.specs.RuleFiles.{tiling_in_file};

use crate::file::file_read;
use crate::file_kind::FileKind;
use builtin_rules::builtin::builtin;
use call_notes::status::Status;
use call_words::rule_choice::RuleChoice;
use dissect_check::check::check;
use rule_model::checked::Checked;
use rule_text::reading::read_rule;
use std::alloc::Global;
use tile_io::source::Source;

/// Returns the accepted rule that the bytes of a file stand for.
fn rule_in(alloc: Global, bytes: &[u8]) -> Result<Checked, Status>
    requires at_most_a_mebibyte { length bytes.now ≤ longest_file }
    ensures accepted { IfOk result (λ checked. tiling_in_file bytes.now ≡ Ok (tiling_of checked)) }
    ensures refused { IfErr result (IsFileRefused bytes.now) }
{
    let rule = read_rule(alloc, bytes)?;
    Ok(check(alloc, rule)?)
}

/// Returns the rule of a choice. For the rule of a file, the source is read to its end.
pub fn rule_chosen<R: Source>(
    alloc: Global,
    choice: RuleChoice,
    source: &mut R,
) -> Result<Checked, Status>
    ensures chosen { IfOk result (λ checked. IsRuleRead choice (R.left source.old) (R.left source.new)
        (tiling_of checked)) }
    ensures refused { IfErr result (IsRuleRefused choice (R.left source.old) (R.left source.new)) }
    ensures read_fault { IsErrOf result Status.ReadFault → Rose (R.faults source.old) (R.faults source.new) }
    ensures untouched { is_file choice ≡ false → source.new ≡ source.old }
{
    match choice {
        RuleChoice::Builtin { name } => Ok(builtin(alloc, name)?),
        RuleChoice::File => {
            let file = file_read(alloc, FileKind::Rule, source)?;
            rule_in(alloc, file.as_slice())
        }
    }
}
