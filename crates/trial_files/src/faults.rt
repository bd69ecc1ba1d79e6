//! The faults of texts.
use crate::wrong::Wrong;
use rule_text::reading::{LONGEST_FILE, read_rule};
use rule_text::text_fault::TextFault;
use std::alloc::{AllocError, Global};

/// The text in front of the types.
pub const HEAD: &str = "format = 1\norder = 4\nlambda = [2, 0, 0, 0]\nglue = []\n";

/// The text in front of the kinds.
pub const TYPES: &str = "[[type]]\nmate = 0\nparts = [0, 0]\n";

/// A fault, and the ends of texts that have it. Each is a line, in which `¶` is a newline and `␍` a return.
pub type Row = (TextFault, &'static str);

/// Returns the fault of a text.
pub fn fault_of(alloc: Global, text: &str) -> Option<TextFault> {
    if text.len() > LONGEST_FILE {
        return None;
    }
    read_rule(alloc, text.as_bytes()).err()
}

/// Returns a line in full.
pub fn spelled(alloc: Global, line: &str) -> Result<String, AllocError> {
    let lines = line.replace(alloc, "¶", "\n")?;
    lines.as_str().replace(alloc, "␍", "\r")
}

/// The fault of a text of these pieces and this end.
fn fault_behind(
    alloc: Global,
    pieces: &[&str],
    end: &str,
) -> Result<Option<TextFault>, AllocError> {
    let end = spelled(alloc, end)?;
    let mut text = String::new(alloc);
    for piece in pieces {
        text.push_str(piece)?;
    }
    text.push_str(end.as_str())?;
    Ok(fault_of(alloc, text.as_str()))
}

/// Notes the first text, after these pieces, that has another fault.
pub fn note_faults(alloc: Global, wrong: &mut Wrong, pieces: &[&str], rows: &'static [Row]) {
    for (fault, ends) in rows {
        for (row, end) in ends.split('\n').enumerate() {
            let told = fault_behind(alloc, pieces, end).unwrap_or(None);
            wrong.note(end, row, told == Some(*fault));
        }
    }
}
