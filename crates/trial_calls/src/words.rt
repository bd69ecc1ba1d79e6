//! Trials of the words of a call: requests, and the places of wrong words.
use crate::calls::first_field;
use crate::told::words_of;
use crate::wrong::Wrong;
use builtin_rules::name::Name;
use call_words::request::{Question, Request, request_in};
use call_words::rule_choice::RuleChoice;
use layer_api::format::Format;
use std::alloc::{AllocError, Global};

/// The places of the first wrong words, and the lines that are refused there.
const REFUSED: &str = "\
0 | 
2 | place rule=chair
3 | place rule=chair addr=0: addr=0:
2 | place addr=0: rule=hat
0 | cross rule=chair addr=0:
0 | Place rule=chair addr=0:
1 | place
1 | place rule=p4 addr=0:
1 | place addr rule=chair
2 | place rule=chair edge=0
1 | place =chair
2 | place rule=chair rule=hat
3 | neighbour rule=chair addr=0:
3 | neighbour rule=chair addr=0: edge=256
3 | neighbour rule=chair addr=0: edge=00
3 | neighbour rule=chair addr=0: edge=-1
2 | neighbour rule=chair edge= addr=0:
3 | walk rule=chair addr=0: grow=65
3 | walk rule=chair addr=0: seed=18446744073709551616
3 | walk rule=chair addr=0: path=
3 | walk rule=chair addr=0: path=0,
3 | walk rule=chair addr=0: path=256
3 | draw rule=chair addr=0: at=0,0,0 half=1,1 layers=list
3 | draw rule=chair addr=0: at=0,0,0,0,0 half=1,1 layers=list
3 | draw rule=chair addr=0: at=0,0,0,-0 half=1,1 layers=list
3 | draw rule=chair addr=0: at=1048577,0,0,0 half=1,1 layers=list
4 | draw rule=chair addr=0: at=0,0,0,0 half=0,1 layers=list
4 | draw rule=chair addr=0: at=0,0,0,0 half=1,4097 layers=list
4 | draw rule=chair addr=0: at=0,0,0,0 half=1 layers=list
5 | draw rule=chair addr=0: at=0,0,0,0 half=1,1 layers=
5 | draw rule=chair addr=0: at=0,0,0,0 half=1,1 layers=list,list
5 | draw rule=chair addr=0: at=0,0,0,0 half=1,1 layers=png
5 | draw rule=chair addr=0: at=0,0,0,0 half=1,1
6 | draw rule=chair addr=0: at=0,0,0,0 half=1,1 layers=svg glue=maybe
1 | check
1 | check rule=half
2 | check rule=chair seed=1
1 | calc
1 | calc rule=-
2 | drill rule=chair n=0
2 | drill rule=chair n=201
2 | drill rule=chair
3 | star rule=chair addr=0:
1 | verify rule=- addr=0: at=0,0,0,0 half=1,1";

/// The place at which a line is refused.
fn place_refused(alloc: Global, line: &str) -> Result<Option<usize>, AllocError> {
    let words = words_of(alloc, line)?;
    Ok(request_in(words.as_slice(), &mut None).err())
}

/// Returns true if a request is for the chair's tile `0:` with this seed, depth and path.
fn is_walk(request: &Request<'_>, start: u64, depth: u8, edges: &[u8]) -> bool {
    match request {
        Request::InFrame {
            addr,
            seed,
            question: Question::Walk { rule, grow, path },
        } => {
            *rule == RuleChoice::Builtin { name: Name::Chair }
                && *addr == "0:"
                && *seed == start
                && *grow == depth
                && *path == edges
        }
        _ => false,
    }
}

/// A line, and the seed, the depth and the path of the walk from the chair's tile `0:` for which it asks.
type Walk = (&'static str, u64, u8, &'static [u8]);

/// Walks with and without their optional words.
static WALKS: [Walk; 2] = [
    ("walk rule=chair addr=0:", 0, 0, &[]),
    (
        "walk path=255,0 grow=64 addr=0: seed=18446744073709551615 rule=chair",
        u64::MAX,
        64,
        &[255, 0],
    ),
];

/// Returns true if a line asks for this walk.
fn asks_for_walk(alloc: Global, walk: &Walk) -> Result<bool, AllocError> {
    let (line, seed, depth, edges) = walk;
    let words = words_of(alloc, line)?;
    Ok(match request_in(words.as_slice(), &mut None) {
        Ok(request) => is_walk(&request, *seed, *depth, edges),
        Err(_) => false,
    })
}

/// Returns true if a request draws the window around -1,2,3,4 with the half extents 1 and 4096, through these
/// layers and with glue.
fn is_draw(request: &Request<'_>, formats: &[Format]) -> bool {
    match request {
        Request::InFrame {
            question: Question::Draw {
                rule,
                window,
                layers,
                glue,
            },
            ..
        } => {
            *rule == RuleChoice::File
                && window.at.c == [-1, 2, 3, 4]
                && window.half.w == 1
                && window.half.h == 4096
                && layers.as_slice() == formats
                && *glue
        }
        _ => false,
    }
}

/// Returns true if a line asks for that drawing.
fn asks_for_draw(alloc: Global, line: &str, formats: &[Format]) -> Result<bool, AllocError> {
    let words = words_of(alloc, line)?;
    Ok(match request_in(words.as_slice(), &mut None) {
        Ok(request) => is_draw(&request, formats),
        Err(_) => false,
    })
}

/// Returns true if a line is refused at the place before it.
fn is_refused(alloc: Global, row: &str) -> Result<bool, AllocError> {
    let (place, line) = first_field(row);
    Ok(place_refused(alloc, line)? == place.parse().ok())
}

/// Notes the first line that is read otherwise.
pub fn note_words(alloc: Global, wrong: &mut Wrong) {
    for (number, row) in REFUSED.split('\n').enumerate() {
        wrong.note(row, number, is_refused(alloc, row).unwrap_or(false));
    }
    for (row, walk) in WALKS.iter().enumerate() {
        wrong.note("walks", row, asks_for_walk(alloc, walk).unwrap_or(false));
    }
    let line = "draw rule=- addr= at=-1,2,3,4 half=1,4096 layers=census,svg glue=yes";
    let formats = [Format::Census, Format::Svg];
    let asks = asks_for_draw(alloc, line, &formats).unwrap_or(false);
    wrong.note(line, 0, asks);
}
