//! Files that are no documents, and documents that strain a reader; and the faults of all texts.
use crate::faults::{HEAD, Row, fault_of, note_faults, spelled};
use crate::heads::note_heads;
use crate::kinds::note_kinds;
use crate::types::note_types;
use crate::wrong::{NONE, Wrong};
use rule_text::key::Key;
use rule_text::place::Place;
use rule_text::reading::{LONGEST_FILE, read_rule};
use rule_text::text_fault::TextFault;
use std::alloc::{AllocError, Global};

/// No documents, whatever their keys are: each a line. Some have numbers beyond 64 bits, and some a key that
/// is given twice.
const NO_DOCUMENTS: &str = "\
format
format 1
format =
= 1
format = 1 order = 4
format = 1␍order = 4
format = 01
format = 1__0
format = +0x01
[[type]
lambda = [2, 0, 0, 0
format = 9223372036854775808
order = -9223372036854775809
lambda = [2, 0, 0, 18446744073709551616]
[[type]]¶mate = 0x10000000000000000
[[kind]]¶children = [[0, 0, 99999999999999999999, 0, 0, 0]]
format = 1¶format = 1
order = 4¶\"order\" = 4
type = []¶[[type]]
[[type]]¶[type]
type = [{mate = 0, mate = 0, parts = [0, 0]}]
[[kind]]¶edges = []¶edges = []";

/// Documents with other line ends, with other spellings of their keys, and with further ones.
static DOCUMENTS: [Row; 2] = [
    (
        TextFault::Missing { key: Key::Format },
        "\
␍¶",
    ),
    (
        TextFault::Missing { key: Key::Order },
        "\
format = 1␍¶
﻿format = 1
'format' = 1
\"\\u0066ormat\" = 1",
    ),
];

/// A document with a further key before its lists.
static FURTHER: [Row; 1] = [(
    TextFault::UnknownKey { place: Place::Top },
    "\
name = \"x\"¶kind = []¶type = []¶",
)];

/// A name, pieces with how often each is repeated, and the fault of the text: brackets that open and close,
/// and many dots, whose faults are reported like any others.
static REPEATED: [(&str, &[(&str, usize)], TextFault); 9] = [
    (
        "10,000 brackets",
        &[("format = ", 1), ("[", 10_000)],
        TextFault::NotToml,
    ),
    (
        "5,000 pairs",
        &[("format = ", 1), ("[", 5_000), ("]", 5_000)],
        TextFault::NotToml,
    ),
    (
        "70 pairs",
        &[("format = ", 1), ("[", 70), ("]", 70)],
        TextFault::WrongType { key: Key::Format },
    ),
    ("5,000 tables", &[("a = {", 5_000)], TextFault::NotToml),
    (
        "5,000 parts of a key",
        &[("a.", 5_000), ("a = 1", 1)],
        TextFault::NotToml,
    ),
    ("dots alone", &[(".", 1_000_000)], TextFault::NotToml),
    (
        "210,000 parts of a key",
        &[("a", 1), (".a", 210_000), (" = 1", 1)],
        TextFault::NotToml,
    ),
    (
        "210,000 numbers",
        &[("format = [", 1), ("1.5,", 210_000), ("]", 1)],
        TextFault::WrongType { key: Key::Format },
    ),
    (
        "210,000 numbers of another key",
        &[("a.b.c.d = [", 1), ("1.5,", 210_000), ("]", 1)],
        TextFault::Missing { key: Key::Format },
    ),
];

/// Returns the fault of a text of these pieces, each repeated.
fn fault_of_many(alloc: Global, pieces: &[(&str, usize)]) -> Result<Option<TextFault>, AllocError> {
    let mut text = String::new(alloc);
    for (piece, times) in pieces {
        for _ in 0..*times {
            text.push_str(piece)?;
        }
    }
    Ok(fault_of(alloc, text.as_str()))
}

/// Returns true if bytes are no document.
fn is_no_document(alloc: Global, bytes: &[u8]) -> bool {
    bytes.len() <= LONGEST_FILE && read_rule(alloc, bytes).err() == Some(TextFault::NotToml)
}

/// Returns true if a line is no document.
fn is_no_line(alloc: Global, line: &str) -> Result<bool, AllocError> {
    let text = spelled(alloc, line)?;
    Ok(is_no_document(alloc, text.as_bytes()))
}

/// Notes the first document, or what is none, that comes out otherwise.
fn note_documents(alloc: Global, wrong: &mut Wrong) {
    wrong.note("xff", 0, is_no_document(alloc, b"\xff"));
    wrong.note("xc3", 0, is_no_document(alloc, b"format = 1 # \xc3"));
    wrong.note("nul", 0, is_no_document(alloc, b"format = 1\n\0"));
    for (row, line) in NO_DOCUMENTS.split('\n').enumerate() {
        wrong.note(line, row, is_no_line(alloc, line).unwrap_or(false));
    }
    for (name, pieces, fault) in &REPEATED {
        let told = fault_of_many(alloc, pieces).unwrap_or(None);
        wrong.note(name, 0, told == Some(*fault));
    }
    note_faults(alloc, wrong, &[], &DOCUMENTS);
    note_faults(alloc, wrong, &[HEAD], &FURTHER);
}

/// The first fault that comes out otherwise.
fn first_wrong(alloc: Global) -> Wrong {
    let mut wrong = NONE;
    note_heads(alloc, &mut wrong);
    note_types(alloc, &mut wrong);
    note_kinds(alloc, &mut wrong);
    note_documents(alloc, &mut wrong);
    wrong
}

#[test]
fn faults(rt: HostRuntime) {
    first_wrong(rt.alloc()).assert_none(&rt);
}
