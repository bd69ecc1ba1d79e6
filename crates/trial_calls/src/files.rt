//! Rule files read from the source: what is printed, and each refusal, on rows typed from outside.
ghost use Rattle.std.specs.Prelude.{◌≤◌};

use crate::calls::{first_field, spelled};
use crate::told::{SOUND, told_over};
use crate::wrong::Wrong;
use std::alloc::{AllocError, Global};
use tile_io::mem_source::MemSource;
use tile_io::source::Source;
use tile_shape::no_memory::NoMemory;

// The chair.
pub(crate) const CHAIR: &str = "format = 1
order = 4
lambda = [2, 0, 0, 0]
glue = []

[[type]]
mate = 0
parts = [0, 0]

[[kind]]
vertices = [[1,1,0,0],[1,2,0,0],[0,2,0,0],[0,1,0,0],[0,0,0,0],[1,0,0,0],[2,0,0,0],[2,1,0,0]]
edges = [0, 0, 0, 0, 0, 0, 0, 0]
children = [[0,0, 0,0,0,0], [0,0, 1,1,0,0], [0,1, 4,0,0,0], [0,3, 0,4,0,0]]
";

// Penrose's rhombs, cut into halves.
const P3: &str = "format = 1
order = 10
lambda = [1, 0, 1, -1]
glue = [4, 6]
type = [{mate = 1, parts = [3, 4]}, {mate = 0, parts = [5, 2]}, {mate = 3, parts = [7]},
    {mate = 2, parts = [6]}, {mate = 5, parts = [3]}, {mate = 4, parts = [2]},
    {mate = 7, parts = [7, 1]}, {mate = 6, parts = [0, 6]}]

[[kind]]
vertices = [[0,0,0,0],[1,0,0,0],[0,1,0,0]]
edges = [0, 4, 3]
children = [[0,7, 1,0,1,0], [2,2, 1,0,0,0]]

[[kind]]
vertices = [[0,0,0,0],[1,0,0,0],[0,1,0,0]]
edges = [2, 5, 1]
children = [[1,3, 1,0,1,-1], [3,6, 0,1,0,0]]

[[kind]]
vertices = [[0,0,0,0],[1,0,0,0],[0,0,0,1]]
edges = [1, 6, 3]
children = [[2,4, 0,0,1,0], [3,0, 0,0,1,-1], [1,7, 0,0,1,0]]

[[kind]]
vertices = [[0,0,0,0],[1,0,0,0],[0,0,0,1]]
edges = [2, 7, 0]
children = [[3,6, 0,1,0,0], [2,0, -1,1,0,0], [0,5, 0,1,0,0]]
";

/// Changes of the chair's file. A row is a line: the words of a call, what of the file is replaced by what, and
/// the outcome.
const CHAIR_ROWS: &str = "\
check rule=- |  |  | 0 accepted order 4 kinds 1 types 1¶|
check rule=chair |  |  | 0 accepted order 4 kinds 1 types 1¶|
place rule=- addr=0:1/0,2/0 |  |  | 0 0 1 7,1,0,0¶|
neighbour edge=4 addr=0:0/0,1/0 rule=- |  |  | 0 0:1/0,0/0 7¶|
neighbour rule=- addr=0:0/0 edge=4 |  |  | 8 |8 Outside 4 0¶
neighbour rule=- addr=0:0/0 edge=8 |  |  | 12 |12 NoEdge 8 8¶
place rule=- addr=0:4/0 |  |  | 4 |4 BadAddress WrongChild 0¶
place rule=- |  |  | 2 |2 BadWords 2¶
check rule=- addr=0: |  |  | 2 |2 BadWords 2¶
check rule=--  |  |  | 2 |2 BadWords 1¶
check |  |  | 2 |2 BadWords 1¶
place rule=- addr= |  [0,0, 1,1,0,0], |  | 3 |3 RuleRefused ChildEdgeLoose 0 0 0¶
check rule=- |  [0,0, 1,1,0,0], |  | 3 |3 RuleRefused ChildEdgeLoose 0 0 0¶
check rule=- | 1,1,0,0], [0,1 | 0,0,0,0], [0,1 | 3 |3 RuleRefused ChildEdgeLoose 0 0 0¶
check rule=- | mate = 0 | mate = 1 | 3 |3 RuleRefused TooMany mate 0¶
check rule=- | glue = [] | glue = [5] | 3 |3 RuleRefused TooMany glue¶
check rule=- | glue = [] | glue = [0] | 3 |3 RuleRefused GlueWrong 0¶
check rule=- | [2, 0, 0, 0] | [1, 0, 0, 0] | 3 |3 RuleRefused WrongFactor¶
check rule=- | [2, 0, 0, 0] | [2, 1, 0, 0] | 3 |3 RuleRefused WrongFactor¶
check rule=- | [1,2,0,0] | [0,1,0,0] | 3 |3 RuleRefused NotStar 0¶
check rule=- | order = 4 | order = \"4\" | 3 |3 RuleRefused WrongType order¶
check rule=- | order = 4 | order = 6 | 3 |3 RuleRefused OutOfRange order¶
check rule=- | [[1,1,0,0] | [[65,1,0,0] | 3 |3 RuleRefused OutOfRange vertices 0¶
check rule=- | glue = [] | glue = []¶name = \"x\" | 3 |3 RuleRefused UnknownKey top¶";

// The same of Penrose's rhombs.
const P3_ROWS: &str = "\
check rule=- |  |  | 0 accepted order 10 kinds 4 types 8¶|
place rule=- addr=0:0/0,0/0 |  |  | 0 0 4 2,0,1,-1¶|
neighbour rule=- addr=2:1/0,0/0 edge=2 |  |  | 0 3:1/2,1/0 0¶|
check rule=- | parts = [7, 1] | parts = [1, 7] | 3 |3 RuleRefused BadSubdivision 6¶
check rule=- | [7, 1]}, {mate = 6, parts = [0, 6] | [1, 7]}, {mate = 6, parts = [6, 0] | 3 |3 RuleRefused BoundaryWrong 2 1 0¶
check rule=- | [0, 4, 3] | [0, 0, 3] | 3 |3 RuleRefused BadLength 0 1¶";

// The half square cut by a factor that turns.
const HALF_SQUARE: &str = "format = 2
order = 4
lambda = [1, 1, 0, 0]
glue = []

[[type]]
mate = 0
parts = [1]

[[type]]
mate = 1
parts = [0, 0]

[[kind]]
vertices = [[0,0,0,0],[1,0,0,0],[0,1,0,0]]
edges = [0, 1, 0]
children = [[0,3, 0,1,0,0], [0,2, 0,1,0,0]]
";

// The same of the half square.
const HALF_SQUARE_ROWS: &str = "\
check rule=- |  |  | 0 accepted order 4 kinds 1 types 2¶|
place rule=- addr=0:1/0,0/0 |  |  | 0 0 1 0,1,0,0¶|
check rule=- | format = 2 | format = 1 | 3 |3 RuleRefused WrongFactor¶
check rule=- | format = 2 | format = 3 | 3 |3 RuleRefused OutOfRange format¶
check rule=- | order = 4 | order = 5 | 3 |3 RuleRefused OutOfRange order¶
check rule=- | [1, 1, 0, 0] | [0, 1, 0, 0] | 3 |3 RuleRefused WrongFactor¶
check rule=- | order = 4¶lambda = [1, 1, 0, 0] | order = 6¶lambda = [1, 1, 1, 0] | 3 |3 RuleRefused OutOfRange lambda¶
check rule=- | order = 4 | order = 6 | 3 |3 RuleRefused ChildEdgeLoose 0 0 1¶";

/// Files without a format: none, and the longest that is read; and one that is too long.
pub const LONG_FILES: &str = "\
check rule=- |  | 3 |3 RuleRefused Missing format¶
check rule=- | «#×1048576» | 3 |3 RuleRefused Missing format¶
check rule=- | «#×1048577» | 3 |3 RuleTooLong¶";

/// Returns the text with the first occurrence of the old text replaced by the new one.
fn changed(alloc: Global, text: &str, old: &str, new: &str) -> Result<String, AllocError> {
    let old = spelled(alloc, old)?;
    let new = spelled(alloc, new)?;
    match text.split_once(old.as_str()) {
        Some((before, behind)) => format!(in alloc; "{before}{new}{behind}"),
        None => text.to_string(alloc),
    }
}

/// How many bytes a source gives in one more call, at most 16.
fn given(source: &mut MemSource) -> usize {
    let mut buf = [0; 16];
    source.read(&mut buf).unwrap_or(1000)
}

/// Returns true if a changed file comes out as its row says. A file is read to its end if the arguments are
/// right and name no rule.
fn is_right(alloc: Global, file: &str, row: &str) -> Result<bool, NoMemory> {
    let (words, rest) = first_field(row);
    let (old, rest) = first_field(rest);
    let (new, outcome) = first_field(rest);
    let wanted = spelled(alloc, outcome)?;
    let bytes = changed(alloc, file, old, new)?.into_bytes();
    let mut source = MemSource::new(bytes, 16, Vec::new(alloc));
    let ended = told_over(alloc, words, &mut source, &SOUND)?;
    let is_read = !outcome.starts_with("2 ") && words != "check rule=chair";
    let left = if is_read { 0 } else { 16 };
    Ok(ended.as_str() == wanted.as_str() && given(&mut source) == left)
}

/// Notes the first changed file that comes out otherwise.
fn note_changed(alloc: Global, wrong: &mut Wrong, file: &str, rows: &'static str) {
    for (number, row) in rows.split('\n').enumerate() {
        wrong.note(row, number, is_right(alloc, file, row).unwrap_or(false));
    }
}

/// What comes of a file that is no text.
fn told_of_no_text(alloc: Global) -> Result<String, NoMemory> {
    let mut source = MemSource::new(vec![in alloc; 255]?, 1, Vec::new(alloc));
    told_over(alloc, "check rule=-", &mut source, &SOUND)
}

/// Notes the first file that comes out otherwise.
pub fn note_files(alloc: Global, wrong: &mut Wrong) {
    note_changed(alloc, wrong, CHAIR, CHAIR_ROWS);
    note_changed(alloc, wrong, P3, P3_ROWS);
    note_changed(alloc, wrong, HALF_SQUARE, HALF_SQUARE_ROWS);
    let is_refused = match told_of_no_text(alloc) {
        Ok(ended) => ended.as_str() == "3 |3 RuleRefused NotToml\n",
        Err(_) => false,
    };
    wrong.note("no text", 0, is_refused);
}
