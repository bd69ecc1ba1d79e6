//! Writes the faults of a rule file as fields of a line.
ghost use Rattle.std.specs.Prelude.{◌≡◌, ◌+◌, ◌≤◌, ◌∷◌, ◌++◌, codes, decimal, length};
ghost use Rattle.arrayvec.specs.ArrayString.{array_string_len};
ghost use Rattle.cyclo_points.specs.Text.{blank};
ghost use Rattle.call_notes.specs.CheckFaultText as checks;
ghost use Rattle.call_notes.specs.TextFaultText as texts;
ghost use Rattle.call_notes.specs.RuleFaultText.{rule_fault_text};

use crate::line::{LINE_ROOM, put_number, put_numbered, put_word};
use crate::rule_fault::RuleFault;
use arrayvec::ArrayString;
use dissect_check::check_fault::CheckFault;
use dissect_check::what::What;
use rule_text::key::Key;
use rule_text::place::Place;
use rule_text::text_fault::TextFault;

/// Puts a key of a rule file.
fn put_key(line: &mut ArrayString<LINE_ROOM>, key: Key)
    requires room { array_string_len line.old + 40 ≤ LINE_ROOM }
    ensures key { line.new.bytes ≡ line.old.bytes ++ blank ∷ texts.file_key_text key }
    ensures at_most { array_string_len line.new ≤ array_string_len line.old + 40 }
{
    match key {
        Key::Format => put_word(line, "format"),
        Key::Order => put_word(line, "order"),
        Key::Lambda => put_word(line, "lambda"),
        Key::Glue => put_word(line, "glue"),
        Key::TypeList => put_word(line, "type"),
        Key::Mate { ty } => put_numbered(line, "mate", u64::from(ty)),
        Key::Parts { ty } => put_numbered(line, "parts", u64::from(ty)),
        Key::KindList => put_word(line, "kind"),
        Key::Vertices { kind } => put_numbered(line, "vertices", u64::from(kind)),
        Key::Edges { kind } => put_numbered(line, "edges", u64::from(kind)),
        Key::Children { kind } => put_numbered(line, "children", u64::from(kind)),
    }
}

/// Puts a table of a rule file.
fn put_place(line: &mut ArrayString<LINE_ROOM>, place: Place)
    requires room { array_string_len line.old + 40 ≤ LINE_ROOM }
    ensures place { line.new.bytes ≡ line.old.bytes ++ blank ∷ texts.place_text place }
    ensures at_most { array_string_len line.new ≤ array_string_len line.old + 40 }
{
    match place {
        Place::Top => put_word(line, "top"),
        Place::InType { ty } => put_numbered(line, "type", u64::from(ty)),
        Place::InKind { kind } => put_numbered(line, "kind", u64::from(kind)),
    }
}

/// Puts a name, and a key of a rule file.
fn put_keyed(line: &mut ArrayString<LINE_ROOM>, word: &str, key: Key)
    requires room { array_string_len line.old + length word.now + 41 ≤ LINE_ROOM }
    ensures keyed { line.new.bytes ≡ line.old.bytes ++ blank ∷ (word.now ++ blank ∷ texts.file_key_text key) }
    ensures at_most { array_string_len line.new ≤ array_string_len line.old + length word.now + 41 }
{
    put_word(line, word);
    put_key(line, key);
}

/// Puts the fault of a rule file's text.
fn put_text_fault(line: &mut ArrayString<LINE_ROOM>, fault: TextFault)
    requires room { array_string_len line.old + 60 ≤ LINE_ROOM }
    ensures fault { line.new.bytes ≡ line.old.bytes ++ blank ∷ texts.text_fault_text fault }
    ensures at_most { array_string_len line.new ≤ array_string_len line.old + 60 }
{
    match fault {
        TextFault::NotToml => put_word(line, "NotToml"),
        TextFault::Missing { key } => put_keyed(line, "Missing", key),
        TextFault::WrongType { key } => put_keyed(line, "WrongType", key),
        TextFault::OutOfRange { key } => put_keyed(line, "OutOfRange", key),
        TextFault::UnknownKey { place } => {
            put_word(line, "UnknownKey");
            put_place(line, place);
        }
        TextFault::NoMemory => put_word(line, "NoMemory"),
    }
}

/// Puts what exceeds a limit.
fn put_what(line: &mut ArrayString<LINE_ROOM>, what: What)
    requires room { array_string_len line.old + 40 ≤ LINE_ROOM }
    ensures what { line.new.bytes ≡ line.old.bytes ++ blank ∷ checks.what_text what }
    ensures at_most { array_string_len line.new ≤ array_string_len line.old + 40 }
{
    match what {
        What::Kinds => put_word(line, "kinds"),
        What::Types => put_word(line, "types"),
        What::Factor => put_word(line, "factor"),
        What::Glue => put_word(line, "glue"),
        What::Mate { ty } => put_numbered(line, "mate", u64::from(ty)),
        What::Parts { ty } => put_numbered(line, "parts", u64::from(ty)),
        What::Edges { kind } => put_numbered(line, "edges", u64::from(kind)),
        What::Vertex { kind } => put_numbered(line, "vertex", u64::from(kind)),
        What::Child { kind } => put_numbered(line, "child", u64::from(kind)),
    }
}

/// Puts the name of a fault and three numbers.
fn put_triple(line: &mut ArrayString<LINE_ROOM>, word: &str, first: u8, second: u8, third: u8)
    requires room { array_string_len line.old + length word.now + 64 ≤ LINE_ROOM }
    ensures triple { line.new.bytes ≡ line.old.bytes ++ blank
        ∷ (word.now ++ blank ∷ (decimal first ++ codes " " ++ decimal second ++ codes " "
        ++ decimal third)) }
    ensures at_most { array_string_len line.new ≤ array_string_len line.old + length word.now + 64 }
{
    put_numbered(line, word, u64::from(first));
    put_number(line, u64::from(second));
    put_number(line, u64::from(third));
}

/// Puts the fault of a rule.
fn put_check_fault(line: &mut ArrayString<LINE_ROOM>, fault: CheckFault)
    requires room { array_string_len line.old + 100 ≤ LINE_ROOM }
    ensures fault { line.new.bytes ≡ line.old.bytes ++ blank ∷ checks.check_fault_text fault }
    ensures at_most { array_string_len line.new ≤ array_string_len line.old + 100 }
{
    match fault {
        CheckFault::TooMany { what } => {
            put_word(line, "TooMany");
            put_what(line, what);
        }
        CheckFault::NotStar { kind } => put_numbered(line, "NotStar", u64::from(kind)),
        CheckFault::WrongFactor => put_word(line, "WrongFactor"),
        CheckFault::BadMate { ty } => put_numbered(line, "BadMate", u64::from(ty)),
        CheckFault::BadLength { kind, edge } => {
            put_numbered(line, "BadLength", u64::from(kind));
            put_number(line, u64::from(edge));
        }
        CheckFault::BadSubdivision { ty } => put_numbered(line, "BadSubdivision", u64::from(ty)),
        CheckFault::ChildEdgeLoose { kind, child, edge } => put_triple(
            line,
            "ChildEdgeLoose",
            kind,
            child,
            edge,
        ),
        CheckFault::BoundaryWrong { kind, edge, part } => put_triple(
            line,
            "BoundaryWrong",
            kind,
            edge,
            part,
        ),
        CheckFault::Unused { kind } => put_numbered(line, "Unused", u64::from(kind)),
        CheckFault::GlueWrong { ty } => put_numbered(line, "GlueWrong", u64::from(ty)),
        CheckFault::NoMemory => put_word(line, "NoMemory"),
    }
}

/// Puts why a rule file is refused.
pub fn put_rule_fault(line: &mut ArrayString<LINE_ROOM>, fault: RuleFault)
    requires room { array_string_len line.old + 100 ≤ LINE_ROOM }
    ensures fault { line.new.bytes ≡ line.old.bytes ++ blank ∷ rule_fault_text fault }
    ensures at_most { array_string_len line.new ≤ array_string_len line.old + 100 }
{
    match fault {
        RuleFault::Text(fault) => put_text_fault(line, fault),
        RuleFault::Check(fault) => put_check_fault(line, fault),
    }
}
