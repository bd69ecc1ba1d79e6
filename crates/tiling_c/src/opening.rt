//! Machines of rule files.
ghost use Rattle.std.specs.Prelude.{◌≡◌, ◌≤◌, length, Ok, IfOk, IfErr};
ghost use Rattle.arrayvec.specs.ArrayString.{array_string_len};
ghost use Rattle.rule_model.specs.Tiling.{tiling_of};
ghost use Rattle.rule_text.specs.Limits.{longest_file};
ghost use Rattle.call_notes.specs.declared.status.Status.TheVariants.{RuleRefused};
ghost use Rattle.call_notes.specs.Notes.{note_of};
ghost use Rattle.tile_app.specs.Reading.{IsFileRefused};
ghost use Rattle.tile_app.specs.RuleFiles.{tiling_in_file};
ghost use Rattle.c_values.specs.Statuses.{ok, rule_refused};
ghost use Rattle.tiling_c.specs.Opening.{HoldsText, OpensFile, ShowsOpenFile, most_bytes};

use crate::machines::slot_of;
use arrayvec::ArrayString;
use c_values::machine_slot::MachineSlot;
use c_values::status::{NO_MEMORY, OK, RULE_REFUSED};
use call_notes::rule_fault::RuleFault;
use call_notes::rule_fault_words::put_rule_fault;
use call_notes::status::Status;
use dissect_check::check::check;
use rule_model::checked::Checked;
use rule_text::reading::{LONGEST_FILE, read_rule};
use std::alloc::Global;

/// Returns the accepted rule that the bytes of a file stand for.
fn rule_in(alloc: Global, file: &[u8]) -> Result<Checked, Status>
    requires at_most_a_mebibyte { length file.now ≤ longest_file }
    ensures accepted { IfOk result (λ checked. tiling_in_file file.now ≡ Ok (tiling_of checked)) }
    ensures refused { IfErr result (IsFileRefused file.now) }
{
    let rule = read_rule(alloc, file)?;
    Ok(check(alloc, rule)?)
}

/// Makes the handle of the machine of the rule that the bytes of a file stand for.
fn opened(alloc: Global, file: &[u8]) -> Result<MachineSlot, Status>
    requires at_most_a_mebibyte { length file.now ≤ longest_file }
    ensures opened { IfOk result (OpensFile file.now) }
    ensures refused { IfErr result (IsFileRefused file.now) }
{
    let checked = rule_in(alloc, file)?;
    Ok(slot_of(alloc, checked)?)
}

/// Returns the line that the command writes for the fault of a rule file.
fn fault_line(fault: RuleFault) -> ArrayString<640>
    ensures line { result.bytes ≡ note_of (RuleRefused fault) }
    ensures short { array_string_len result ≤ most_bytes }
{
    let mut line = ArrayString::new();
    line.push_str("3 RuleRefused");
    put_rule_fault(&mut line, fault);
    line.push_str("\n");
    line
}

/// Puts a text into the first bytes of an array, as far as there is room, and its length into `bytes`.
pub fn put_text(text: &[u8], out: &mut [u8], bytes: &mut usize)
    ensures text { HoldsText text.now out.old out.new }
    ensures bytes { bytes.new ≡ length text.now }
{
    let room = text.len().min(out.len());
    out[..room].copy_from_slice(&text[..room]);
    *bytes = text.len();
}

/// Makes the machine of the rule that a file stands for. If the file is refused, `line` takes the line that
/// the command writes for its first fault, as far as there is room, and `line_bytes` its whole length.
#[unsafe(no_mangle)]
pub extern "C" fn tiling_open_file(
    alloc: Global,
    file: &[u8],
    out: &mut MachineSlot,
    line: &mut [u8],
    line_bytes: &mut usize,
) -> u8
    ensures shown { ShowsOpenFile file.now out.new line.old line.new line_bytes.new result }
    ensures unchanged { (¬ result ≡ ok → out.new ≡ out.old)
        × (¬ result ≡ rule_refused → (line.new ≡ line.old) × (line_bytes.new ≡ line_bytes.old)) }
{
    if file.len() > LONGEST_FILE {
        put_text(b"3 RuleTooLong\n".as_slice(), line, line_bytes);
        return RULE_REFUSED;
    }
    match opened(alloc, file) {
        Ok(slot) => {
            *out = slot;
            OK
        }
        Err(Status::RuleRefused { fault }) => {
            let told = fault_line(fault);
            put_text(told.as_str().as_bytes(), line, line_bytes);
            RULE_REFUSED
        }
        Err(_) => NO_MEMORY,
    }
}
