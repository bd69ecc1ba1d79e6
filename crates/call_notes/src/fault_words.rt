//! Writes the faults of addresses, scripts and lists of tiles as fields of a line.
ghost use Rattle.std.specs.Prelude.{◌≡◌, ◌+◌, ◌≤◌, ◌∷◌, ◌++◌, codes, decimal, length};
ghost use Rattle.arrayvec.specs.ArrayString.{array_string_len};
ghost use Rattle.cyclo_points.specs.Text.{blank};
ghost use Rattle.tile_shape.specs.FaultText as addresses;
ghost use Rattle.call_notes.specs.CalcFaultText as scripts;
ghost use Rattle.call_notes.specs.ListFaultText as listings;
ghost use Rattle.call_notes.specs.ScriptFaultText.{script_fault_text};

use crate::line::{
    LINE_ROOM, put_address, put_depth_limit, put_motion, put_number, put_numbered, put_point,
    put_word,
};
use crate::script_fault::ScriptFault;
use addr_calc::calc_fault::CalcFault;
use arrayvec::ArrayString;
use list_verify::list_fault::ListFault;
use tile_shape::address_fault::AddressFault;

/// Puts the fault of an address.
pub fn put_address_fault(line: &mut ArrayString<LINE_ROOM>, fault: AddressFault)
    requires room { array_string_len line.old + 40 ≤ LINE_ROOM }
    ensures fault { line.new.bytes ≡ line.old.bytes ++ blank ∷ addresses.address_fault_text fault }
    ensures at_most { array_string_len line.new ≤ array_string_len line.old + 40 }
{
    match fault {
        AddressFault::BadText { place } => put_numbered(line, "BadText", place as u64),
        AddressFault::TooDeep => put_word(line, "TooDeep"),
        AddressFault::UnknownKind { level } => put_numbered(line, "UnknownKind", u64::from(level)),
        AddressFault::WrongChild { level } => put_numbered(line, "WrongChild", u64::from(level)),
    }
}

/// Puts the fault of a line of a script.
fn put_calc_fault(line: &mut ArrayString<LINE_ROOM>, fault: CalcFault)
    requires room { array_string_len line.old + 140 ≤ LINE_ROOM }
    ensures fault { line.new.bytes ≡ line.old.bytes ++ blank ∷ scripts.calc_fault_text fault }
    ensures at_most { array_string_len line.new ≤ array_string_len line.old + 140 }
{
    match fault {
        CalcFault::BadLine {
            line: number,
            place,
        } => {
            put_numbered(line, "BadLine", u64::from(number));
            put_number(line, u64::from(place));
        }
        CalcFault::UnknownName { line: number } => put_numbered(
            line,
            "UnknownName",
            u64::from(number),
        ),
        CalcFault::Address {
            line: number,
            fault,
        } => {
            put_numbered(line, "Address", u64::from(number));
            put_address_fault(line, fault);
        }
        CalcFault::NoEdge { line: number } => put_numbered(line, "NoEdge", u64::from(number)),
        CalcFault::Outside {
            line: number,
            edge,
            part,
        } => {
            put_numbered(line, "Outside", u64::from(number));
            put_number(line, u64::from(edge));
            put_number(line, u64::from(part));
        }
        CalcFault::CoordLimit {
            line: number,
            value,
        } => {
            put_numbered(line, "CoordLimit", u64::from(number));
            put_point(line, &value);
        }
        CalcFault::NoMemory => put_word(line, "NoMemory"),
    }
}

/// Puts why a script is refused: its length, or the line and its fault.
pub fn put_script_fault(line: &mut ArrayString<LINE_ROOM>, fault: ScriptFault)
    requires room { array_string_len line.old + 140 ≤ LINE_ROOM }
    ensures fault { line.new.bytes ≡ line.old.bytes ++ blank ∷ script_fault_text fault }
    ensures at_most { array_string_len line.new ≤ array_string_len line.old + 140 }
{
    match fault {
        ScriptFault::TooLong => put_word(line, "TooLong"),
        ScriptFault::Calc(fault) => put_calc_fault(line, fault),
    }
}

/// Puts the name of a fault, and the number of a line.
fn put_line_fault(text: &mut ArrayString<LINE_ROOM>, word: &str, line: u32)
    requires room { array_string_len text.old + length word.now + 22 ≤ LINE_ROOM }
    ensures fault { text.new.bytes ≡ text.old.bytes ++ blank ∷ (word.now ++ blank ∷ decimal line) }
    ensures at_most { array_string_len text.new ≤ array_string_len text.old + length word.now + 22 }
{
    put_numbered(text, word, u64::from(line));
}

/// Puts the fault of a list of tiles.
pub fn put_list_fault(text: &mut ArrayString<LINE_ROOM>, fault: &ListFault)
    requires room { array_string_len text.old + 549 ≤ LINE_ROOM }
    ensures fault { text.new.bytes ≡ text.old.bytes ++ blank ∷ listings.list_fault_text fault.now }
    ensures at_most { array_string_len text.new ≤ array_string_len text.old + 549 }
{
    match fault {
        ListFault::TooLong => put_word(text, "TooLong"),
        ListFault::BadLine { line, place } => {
            put_line_fault(text, "BadLine", *line);
            put_number(text, u64::from(*place));
        }
        ListFault::Address { line, fault } => {
            put_line_fault(text, "Address", *line);
            put_address_fault(text, *fault);
        }
        ListFault::BadKind { line } => put_line_fault(text, "BadKind", *line),
        ListFault::NotOfFrame { line } => put_line_fault(text, "NotOfFrame", *line),
        ListFault::Double { line } => put_line_fault(text, "Double", *line),
        ListFault::Missing { addr } => {
            put_word(text, "Missing");
            put_address(text, addr);
        }
        ListFault::WrongPlace { line, motion } => {
            put_line_fault(text, "WrongPlace", *line);
            put_motion(text, motion);
        }
        ListFault::Stray { line } => put_line_fault(text, "Stray", *line),
        ListFault::DepthLimit { addr, edge } => put_depth_limit(text, addr, *edge),
        ListFault::CoordLimit { value } => {
            put_word(text, "CoordLimit");
            put_point(text, value);
        }
        ListFault::NoMemory => put_word(text, "NoMemory"),
    }
}
