//! The line that a refusal writes to the notes.
ghost use Rattle.std.specs.Prelude.{◌≡◌, ◌+◌, ◌≤◌, ◌∷◌, ◌++◌};
ghost use Rattle.arrayvec.specs.ArrayString.{array_string_len};
ghost use Rattle.call_notes.specs.Notes.{status_text, note_of, IsNoted};
ghost use Rattle.cyclo_points.specs.Text.{blank};

use crate::fault_words::{put_address_fault, put_list_fault, put_script_fault};
use crate::line::{LINE_ROOM, put_depth_limit, put_numbered, put_pair, put_point, put_word};
use crate::rule_fault_words::put_rule_fault;
use crate::status::Status;
use arrayvec::ArrayString;
use call_words::format_words::format_text;
use itoa::Buffer;
use tile_io::sink::Sink;
use tile_io::writing::write_all;

/// Puts the name of a status and its fields.
fn put_status(line: &mut ArrayString<LINE_ROOM>, status: &Status)
    requires room { array_string_len line.old + 560 ≤ LINE_ROOM }
    ensures status { line.new.bytes ≡ line.old.bytes ++ blank ∷ status_text status.now }
    ensures at_most { array_string_len line.new ≤ array_string_len line.old + 560 }
{
    match status {
        Status::Done => put_word(line, "Done"),
        Status::BadWords { place } => put_numbered(line, "BadWords", *place as u64),
        Status::NoLayer { format } => {
            put_word(line, "NoLayer");
            put_word(line, format_text(*format));
        }
        Status::ReadFault => put_word(line, "ReadFault"),
        Status::RuleTooLong => put_word(line, "RuleTooLong"),
        Status::RuleRefused { fault } => {
            put_word(line, "RuleRefused");
            put_rule_fault(line, *fault);
        }
        Status::BadAddress { fault } => {
            put_word(line, "BadAddress");
            put_address_fault(line, *fault);
        }
        Status::NoEdge { edge, edges } => put_pair(line, "NoEdge", *edge, *edges),
        Status::NoVertex { vertex, edges } => put_pair(line, "NoVertex", *vertex, *edges),
        Status::Outside { edge, part } => put_pair(line, "Outside", *edge, *part),
        Status::DepthLimit { addr, edge } => put_depth_limit(line, addr, *edge),
        Status::CoordLimit { value } => {
            put_word(line, "CoordLimit");
            put_point(line, value);
        }
        Status::TooManyTiles => put_word(line, "TooManyTiles"),
        Status::StarTooBig => put_word(line, "StarTooBig"),
        Status::BadScript { fault } => {
            put_word(line, "BadScript");
            put_script_fault(line, *fault);
        }
        Status::BadListing { fault } => {
            put_word(line, "BadListing");
            put_list_fault(line, fault);
        }
        Status::WriteFault => put_word(line, "WriteFault"),
        Status::NoMemory => put_word(line, "NoMemory"),
    }
}

/// Returns the line of a refusal: its code, its name and its fields. The line is in fixed storage and needs
/// no memory.
fn note(status: &Status) -> ArrayString<LINE_ROOM>
    requires refusal { ¬ status.now ≡ Status.Done }
    ensures { result.bytes ≡ note_of status.now }
{
    let mut line = ArrayString::new();
    let mut figures = Buffer::new();
    line.push_str(figures.format(status.code()));
    put_status(&mut line, status);
    line.push_str("\n");
    line
}

/// Writes the note of a status, and nothing for `Done`. A failure of the notes is ignored.
pub fn write_note<N: Sink>(notes: &mut N, status: &Status)
    ensures noted { IsNoted (N.faults notes.old) (N.faults notes.new) (N.taken notes.old)
        (N.taken notes.new) (note_of status.now) }
    ensures not_noted { status.now ≡ Status.Done → notes.new ≡ notes.old }
{
    if let Status::Done = status {
        return;
    }
    let line = note(status);
    let _ = write_all(notes, line.as_bytes());
}
