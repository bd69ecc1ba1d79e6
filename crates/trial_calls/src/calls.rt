//! Calls of the top call by a line of words, compared with what is wanted.
use crate::told::{Failing, SOUND, told};
use crate::wrong::Wrong;
use std::alloc::{AllocError, Global};

/// Two chairs, as a list.
pub const CHAIRS_LIST: &str = "0 0 0,0,0,0 0:3/0\n0 1 3,1,0,0 0:1/0\n";

/// Puts a piece as often as it is to be repeated.
fn put_repeated(text: &mut String, repeated: &str) -> Result<(), AllocError> {
    let (piece, times) = repeated.split_once('×').unwrap_or((repeated, "1"));
    let times: u32 = times.parse().unwrap_or(0);
    for _ in 0..times {
        text.push_str(piece)?;
    }
    Ok(())
}

/// Returns a field of a row in full: `«PIECE×TIMES»` is a piece repeated, `¶` a newline, and `␍` a return.
pub fn spelled(alloc: Global, field: &str) -> Result<String, AllocError> {
    let lines = field.replace(alloc, "¶", "\n")?;
    let text = lines.replace(alloc, "␍", "\r")?;
    let mut all = String::new(alloc);
    for part in text.as_str().split('«') {
        let (repeated, rest) = part.split_once('»').unwrap_or(("", part));
        put_repeated(&mut all, repeated)?;
        all.push_str(rest)?;
    }
    Ok(all)
}

/// Returns the first field of a row, and the others.
pub fn first_field(row: &str) -> (&str, &str) {
    row.split_once(" | ").unwrap_or((row, ""))
}

/// Returns true if a call comes to this: the exit code, and after it what is printed and noted.
pub fn comes_to(alloc: Global, line: &str, source: &str, failing: &Failing, wanted: &str) -> bool {
    match told(alloc, line, source, failing) {
        Ok(ended) => ended.as_str() == wanted,
        Err(_) => false,
    }
}

/// Returns true if a call comes to what its row says.
fn is_right(alloc: Global, row: &str) -> Result<bool, AllocError> {
    let (words, rest) = first_field(row);
    let (source, outcome) = first_field(rest);
    let line = spelled(alloc, words)?;
    let source = spelled(alloc, source)?;
    let wanted = spelled(alloc, outcome)?;
    Ok(comes_to(
        alloc,
        line.as_str(),
        source.as_str(),
        &SOUND,
        wanted.as_str(),
    ))
}

/// Notes the first row that comes out otherwise. A row is a line: the words of a call, what its source holds,
/// and the outcome. That is the exit code, what is printed, and after a bar what is noted. A line that
/// begins with `#` is a comment.
pub fn note_rows(alloc: Global, wrong: &mut Wrong, rows: &'static str) {
    for (number, row) in rows.split('\n').enumerate() {
        if !row.starts_with("#") {
            wrong.note(row, number, is_right(alloc, row).unwrap_or(false));
        }
    }
}
