//! Whole files: the chair with one piece of it changed.
use crate::chair_rule::{CHAIR, is_read_to_chair};
use crate::editions::note_editions;
use crate::faults::{HEAD, fault_of};
use crate::wrong::{NONE, Wrong};
use rule_text::key::Key;
use rule_text::place::Place;
use rule_text::text_fault::TextFault;
use std::alloc::{AllocError, Global};

const VERTICES: Key = Key::Vertices { kind: 0 };

const CHILDREN: Key = Key::Children { kind: 0 };

/// A piece, its replacement, and the fault.
static FAULTS: [(&str, &str, TextFault); 12] = [
    ("format = 1\n", "", TextFault::Missing { key: Key::Format }),
    (
        "format = 1",
        "format = 3",
        TextFault::OutOfRange { key: Key::Format },
    ),
    (
        "order = 4",
        "order = \"4\"",
        TextFault::WrongType { key: Key::Order },
    ),
    (
        "order = 4",
        "order = 6",
        TextFault::OutOfRange { key: Key::Order },
    ),
    (
        "[2, 0, 0, 0]",
        "[2, 0, 0]",
        TextFault::WrongType { key: Key::Lambda },
    ),
    ("glue = []\n", "", TextFault::Missing { key: Key::Glue }),
    (
        "glue = []",
        "glue = []\nname = \"x\"",
        TextFault::UnknownKey { place: Place::Top },
    ),
    (
        "[[type]]",
        "[type]",
        TextFault::WrongType { key: Key::TypeList },
    ),
    (
        "mate = 0",
        "mate = 0\nname = \"x\"",
        TextFault::UnknownKey {
            place: Place::InType { ty: 0 },
        },
    ),
    (
        "[[1,1,0,0],[1,2",
        "[[65,1,0,0],[1,2",
        TextFault::OutOfRange { key: VERTICES },
    ),
    (
        "[0,1, 4,0,0,0]",
        "[0,4, 4,0,0,0]",
        TextFault::OutOfRange { key: CHILDREN },
    ),
    (
        "[[0,0, 0",
        "[[\"0\",0, 0",
        TextFault::WrongType { key: CHILDREN },
    ),
];

/// A piece, and another spelling of it.
static SPELLINGS: [(&str, &str); 11] = [
    ("\n", "\r\n"),
    ("\n", "\n\n# a line of its own\n"),
    ("order", "\"order\""),
    ("order", "'order'"),
    ("order = 4", "order=+4"),
    ("order = 4", "order = 0x04"),
    ("mate = 0", "mate = -0"),
    ("parts = [0, 0]", "parts = [ 0x0,\n\t0b0 , ] # twice"),
    ("[[kind]]", "[[ \"kind\" ]]"),
    (
        "[[type]]\nmate = 0\nparts = [0, 0]",
        "type = [{mate = 0, parts = [0, 0]}]",
    ),
    (
        "[[type]]\nmate = 0\nparts = [0, 0]",
        "type = [{parts = [0, 0], \"mate\" = 0}]",
    ),
];

/// Types and kinds, the lists in either form.
static LISTS: [&str; 3] = [
    "kind = [{vertices = [], edges = [], children = []}]\ntype = [{mate = 0, parts = []}]\n",
    "kind = []\n[[type]]\nmate = 0\nparts = [0, 0]\n",
    "type = []\n[[kind]]\nchildren = []\nedges = []\nvertices = []\n",
];

/// Returns true if the chair with another piece in the place of one has this fault.
fn has_fault(
    alloc: Global,
    piece: &str,
    other: &str,
    fault: TextFault,
) -> Result<bool, AllocError> {
    let text = CHAIR.replace(alloc, piece, other)?;
    Ok(fault_of(alloc, text.as_str()) == Some(fault))
}

/// Returns true if a piece is replaced by another one, and the chair is still read.
fn is_spelling(alloc: Global, piece: &str, other: &str) -> Result<bool, AllocError> {
    let text = CHAIR.replace(alloc, piece, other)?;
    Ok(text.as_str() != CHAIR && is_read_to_chair(alloc, text.as_str()))
}

/// Returns true if types and kinds are read after the head.
fn are_lists(alloc: Global, lists: &str) -> Result<bool, AllocError> {
    let text = format!(in alloc; "{HEAD}{lists}")?;
    Ok(fault_of(alloc, text.as_str()).is_none())
}

/// Notes the first file that comes out otherwise.
fn note_files(alloc: Global, wrong: &mut Wrong) {
    for (row, (piece, other, fault)) in FAULTS.iter().enumerate() {
        let is_right = has_fault(alloc, piece, other, *fault);
        wrong.note(other, row, is_right.unwrap_or(false));
    }
    for (row, (piece, other)) in SPELLINGS.iter().enumerate() {
        let is_right = is_spelling(alloc, piece, other);
        wrong.note(other, row, is_right.unwrap_or(false));
    }
    for (row, lists) in LISTS.iter().enumerate() {
        wrong.note(lists, row, are_lists(alloc, lists).unwrap_or(false));
    }
}

/// The first file that comes out otherwise.
fn first_wrong(alloc: Global) -> Wrong {
    let mut wrong = NONE;
    note_files(alloc, &mut wrong);
    note_editions(alloc, &mut wrong);
    wrong
}

#[test]
fn files(rt: HostRuntime) {
    first_wrong(rt.alloc()).assert_none(&rt);
}
