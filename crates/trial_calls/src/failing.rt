//! A source, a sink and notes that fail at each of their calls in turn, for a call of every command.
use crate::calls::{CHAIRS_LIST, comes_to};
use crate::files::CHAIR;
use crate::told::{Failing, SOUND};
use crate::wrong::{NONE, Wrong};
use std::alloc::{AllocError, Global};

const SCRIPT: &str = "let a 0:0/0,1/0\nacross a 4 b\ncommon a b\nplace b\n";

/// The words of a call, what its source holds, and what it prints.
type Call = (&'static str, &'static str, &'static str);

/// A call of each command.
static CALLS: [Call; 9] = [
    ("place rule=- addr=0:1/0,2/0", CHAIR, "0 1 7,1,0,0\n"),
    (
        "neighbour rule=- addr=0:0/0,1/0 edge=4",
        CHAIR,
        "0:1/0,0/0 7\n",
    ),
    (
        "walk rule=- seed=42 addr=0: path=0,3",
        CHAIR,
        "0 0 0,0,0,0 0:3/0 -\n0 1 3,1,0,0 0:1/0 1\n0 1 4,0,0,0 0:0/0 0\n",
    ),
    (
        "draw rule=- seed=42 addr=0: at=1,1,0,0 half=2,1 layers=list",
        CHAIR,
        CHAIRS_LIST,
    ),
    ("check rule=-", CHAIR, "accepted order 4 kinds 1 types 1\n"),
    (
        "calc rule=chair",
        SCRIPT,
        "b 0:1/0,0/0 7\na b 2\nb 0 0 1,1,0,0\n",
    ),
    (
        "drill rule=- seed=42 n=1",
        CHAIR,
        "windows 1\ntiles 433\nlargest 433\ndepth 9\nrefused 0\n",
    ),
    (
        "star rule=- seed=42 addr=0: vertex=0",
        CHAIR,
        "0 0 0,0,0,0 0:3/0 0\n0 1 3,1,0,0 0:1/0 2\n",
    ),
    (
        "verify rule=chair seed=42 addr=0: at=1,1,0,0 half=2,1",
        CHAIRS_LIST,
        "right 2\n",
    ),
];

/// The words of a refused call, what its source holds, its exit code, and its note without the newline.
type Refused = (&'static str, &'static str, u8, &'static str);

/// A refused call of each command.
static REFUSED: [Refused; 9] = [
    (
        "place rule=- addr=0:4/0",
        CHAIR,
        4,
        "4 BadAddress WrongChild 0",
    ),
    (
        "neighbour rule=chair addr=0:0/0 edge=4",
        "",
        8,
        "8 Outside 4 0",
    ),
    ("walk rule=- addr=0: path=8", CHAIR, 12, "12 NoEdge 8 8"),
    (
        "draw rule=- addr=0: at=1,1,0,0 half=2,1 layers=svg",
        CHAIR,
        14,
        "14 NoLayer svg",
    ),
    (
        "check rule=-",
        "format = 1\n",
        3,
        "3 RuleRefused Missing order",
    ),
    (
        "calc rule=chair",
        "show c",
        13,
        "13 BadScript UnknownName 1",
    ),
    ("drill rule=- n=0", CHAIR, 2, "2 BadWords 2"),
    ("star rule=- addr=0: vertex=8", CHAIR, 15, "15 NoVertex 8 8"),
    (
        "verify rule=chair seed=42 addr=0: at=1,1,0,0 half=2,1",
        "0 0 0,0,0,0 0:3/0\n",
        17,
        "17 BadListing Missing 0:1/0",
    ),
];

/// Returns true if a call prints the front of its text and reports the write that fails after so many.
fn reports_write(alloc: Global, call: &Call, writes: usize) -> Result<bool, AllocError> {
    let (line, file, text) = call;
    let front = text.get(..writes).unwrap_or("?");
    let wanted = format!(in alloc; "10 {front}|10 WriteFault\n")?;
    let failing = Failing { writes, ..SOUND };
    Ok(comes_to(alloc, line, file, &failing, wanted.as_str()))
}

/// Returns true if a call reports the read of this number, which fails.
fn reports_read(alloc: Global, call: &Call, read: u64) -> bool {
    let failing = Failing { read, ..SOUND };
    comes_to(alloc, call.0, call.1, &failing, "9 |9 ReadFault\n")
}

/// Returns true if a call prints its text, with sound streams and where a read fails that doesn't come. The
/// given number of reads gives the bytes, and one more the end.
fn prints(alloc: Global, call: &Call, last: u64) -> Result<bool, AllocError> {
    let (line, file, text) = call;
    let wanted = format!(in alloc; "0 {text}|")?;
    let beyond = Failing {
        read: last.saturating_add(1),
        ..SOUND
    };
    Ok(
        comes_to(alloc, line, file, &SOUND, wanted.as_str())
            && comes_to(alloc, line, file, &beyond, wanted.as_str()),
    )
}

/// Returns true if the exit code of a refused call stays as it is where a note fails after so many bytes, and
/// what is noted is the front of the note.
fn keeps_code(alloc: Global, refused: &Refused, notes: usize) -> Result<bool, AllocError> {
    let (line, file, code, note) = refused;
    let front = note.get(..notes).unwrap_or(note);
    let end = if notes > note.len() { "\n" } else { "" };
    let wanted = format!(in alloc; "{code} |{front}{end}")?;
    let failing = Failing { notes, ..SOUND };
    Ok(comes_to(alloc, line, file, &failing, wanted.as_str()))
}

/// Notes the first call that comes out otherwise, where its writes or reads fail in turn.
fn note_calls(alloc: Global, wrong: &mut Wrong) {
    for call in &CALLS {
        for writes in 0..call.2.len() {
            let is_right = reports_write(alloc, call, writes).unwrap_or(false);
            wrong.note(call.0, writes, is_right);
        }
        let last = call.1.len().div_ceil(16) + 1;
        for read in 1..=last {
            wrong.note(call.0, read, reports_read(alloc, call, read as u64));
        }
        let is_right = prints(alloc, call, last as u64).unwrap_or(false);
        wrong.note(call.0, last, is_right);
    }
}

/// The first call that comes out otherwise, where its writes, reads or notes fail in turn.
fn first_wrong(alloc: Global) -> Wrong {
    let mut wrong = NONE;
    note_calls(alloc, &mut wrong);
    for refused in &REFUSED {
        for notes in 0..refused.3.len().saturating_add(2) {
            let is_right = keeps_code(alloc, refused, notes).unwrap_or(false);
            wrong.note(refused.0, notes, is_right);
        }
    }
    wrong
}

#[test]
fn streams_that_fail(rt: HostRuntime) {
    first_wrong(rt.alloc()).assert_none(&rt);
}
