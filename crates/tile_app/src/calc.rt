//! The command `calc`: the output of a script.
ghost use Rattle.std.specs.Prelude.{◌≡◌, ◌≤◌, length, IfOk, IfErr, IsErrOf};
ghost use Rattle.rule_model.specs.Tiling.{tiling_of};
ghost use Rattle.tile_io.specs.Causes.{Rose};
ghost use Rattle.tile_app.specs.Reading.{IsScriptPrinted, IsScriptRefused};

use crate::file::file_read;
use crate::file_kind::FileKind;
use addr_calc::calc::calc;
use call_notes::status::Status;
use rule_model::checked::Checked;
use std::alloc::Global;
use tile_io::source::Source;
use tile_place::machine::Machine;

/// Returns the output of the script that is read, or the fault of its first line that has one.
fn script_output<R: Source>(
    alloc: Global,
    machine: &Machine,
    source: &mut R,
) -> Result<Vec<u8>, Status>
    ensures printed { IfOk result (λ text. IsScriptPrinted (tiling_of machine.now) (R.left source.old)
        (R.left source.new) text.items) }
    ensures refused { IfErr result (IsScriptRefused (tiling_of machine.now) (R.left source.old)
        (R.left source.new)) }
    ensures read_fault { IsErrOf result Status.ReadFault → Rose (R.faults source.old) (R.faults source.new) }
{
    let script = file_read(alloc, FileKind::Script, source)?;
    Ok(calc(alloc, machine, script.as_slice())?)
}

/// Returns what `calc` prints for the script that is read, or its refusal.
pub fn calc_text<R: Source>(
    alloc: Global,
    checked: Checked,
    source: &mut R,
) -> Result<Vec<u8>, Status>
    ensures printed { IfOk result (λ text. IsScriptPrinted (tiling_of checked) (R.left source.old)
        (R.left source.new) text.items) }
    ensures refused { IfErr result (IsScriptRefused (tiling_of checked) (R.left source.old)
        (R.left source.new)) }
    ensures read_fault { IsErrOf result Status.ReadFault → Rose (R.faults source.old) (R.faults source.new) }
{
    let machine = Machine::new(alloc, checked)?;
    script_output(alloc, &machine, source)
}
