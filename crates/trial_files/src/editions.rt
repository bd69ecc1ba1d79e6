//! Files of both formats, and the rules of both editions that are written.
use crate::chair_rule::{CHAIR, chair, is_chair, is_read_to_chair};
use crate::wrong::Wrong;
use cyclo_points::order::Order;
use rule_model::edition::Edition;
use rule_model::rule::Rule;
use rule_text::reading::{LONGEST_FILE, read_rule};
use rule_text::text_fault::TextFault;
use rule_text::writing::{write_rule, written_and_read};
use std::alloc::{AllocError, Global};

/// The half square cut by a factor that turns.
const HALF_SQUARE: &str = "format = 2
order = 4
lambda = [1, 1, 0, 0]
glue = []

[[type]]
mate = 0
parts = [1]

[[type]]
mate = 1
parts = [0, 0]

[[kind]]
vertices = [[0,0,0,0],[1,0,0,0],[0,1,0,0]]
edges = [0, 1, 0]
children = [[0,3, 0,1,0,0], [0,2, 0,1,0,0]]
";

/// A file, a piece of it, its replacement, and the edition, the order and the factor that are read, with how
/// many types and kinds there are.
type Read = (
    &'static str,
    &'static str,
    &'static str,
    Edition,
    Order,
    [i64; 4],
    usize,
    usize,
);

/// The factors of the half square and of the chair.
const TURNING: [i64; 4] = [1, 1, 0, 0];

const TWO: [i64; 4] = [2, 0, 0, 0];

static READ: [Read; 14] = [
    (
        HALF_SQUARE,
        "format = 2",
        "format = 2",
        Edition::Two,
        Order::Four,
        TURNING,
        2,
        1,
    ),
    (
        HALF_SQUARE,
        "format = 2",
        "format = 1",
        Edition::One,
        Order::Four,
        TURNING,
        2,
        1,
    ),
    (
        HALF_SQUARE,
        "order = 4",
        "order = 6",
        Edition::Two,
        Order::Six,
        TURNING,
        2,
        1,
    ),
    (
        HALF_SQUARE,
        "order = 4",
        "order = 0x6",
        Edition::Two,
        Order::Six,
        TURNING,
        2,
        1,
    ),
    (
        HALF_SQUARE,
        "order = 4",
        "order = 8",
        Edition::Two,
        Order::Eight,
        TURNING,
        2,
        1,
    ),
    (
        HALF_SQUARE,
        "order = 4",
        "order = 10",
        Edition::Two,
        Order::Ten,
        TURNING,
        2,
        1,
    ),
    (
        CHAIR,
        "order = 4",
        "order = 4",
        Edition::One,
        Order::Four,
        TWO,
        1,
        1,
    ),
    (
        CHAIR,
        "order = 4",
        "order = +4",
        Edition::One,
        Order::Four,
        TWO,
        1,
        1,
    ),
    (
        CHAIR,
        "order = 4",
        "order = 0x8",
        Edition::One,
        Order::Eight,
        TWO,
        1,
        1,
    ),
    (
        CHAIR,
        "order = 4",
        "order = 0b1000",
        Edition::One,
        Order::Eight,
        TWO,
        1,
        1,
    ),
    (
        CHAIR,
        "order = 4",
        "order = +10",
        Edition::One,
        Order::Ten,
        TWO,
        1,
        1,
    ),
    (
        CHAIR,
        "order = 4",
        "order = 0x0A",
        Edition::One,
        Order::Ten,
        TWO,
        1,
        1,
    ),
    (
        CHAIR,
        "order = 4",
        "order = 0o12",
        Edition::One,
        Order::Ten,
        TWO,
        1,
        1,
    ),
    (
        CHAIR,
        "order = 4",
        "order = 1_0",
        Edition::One,
        Order::Ten,
        TWO,
        1,
        1,
    ),
];

/// Returns true if a rule was read as its row says.
fn is_of(rule: &Rule, row: &Read) -> bool {
    let (_, _, _, edition, order, factor, types, kinds) = row;
    rule.edition == *edition
        && rule.order == *order
        && rule.factor.c == *factor
        && rule.types.len() == *types
        && rule.kinds.len() == *kinds
}

/// Returns true if a changed file is read as its row says.
fn is_read(alloc: Global, row: &Read) -> Result<bool, AllocError> {
    let text = row.0.replace(alloc, row.1, row.2)?;
    if text.len() > LONGEST_FILE {
        return Ok(false);
    }
    Ok(match read_rule(alloc, text.as_bytes()) {
        Ok(rule) => is_of(&rule, row),
        Err(_) => false,
    })
}

/// Each edition, and the line of its format.
const FORMATS: [(Edition, &str); 2] = [
    (Edition::One, "format = 1\n"),
    (Edition::Two, "format = 2\n"),
];

/// Returns true if the chair is written in the format of the edition, and read back to the edition.
fn goes_both_ways(alloc: Global, edition: Edition, head: &str) -> Result<bool, TextFault> {
    let rule = chair(alloc, edition)?;
    let text = write_rule(alloc, &rule)?;
    let back = written_and_read(alloc, &rule)?;
    Ok(
        is_chair(&rule)
            && text.as_str().starts_with(head)
            && text.len() < 1_000
            && is_read_to_chair(alloc, text.as_str())
            && back.edition == edition
            && is_chair(&back),
    )
}

/// Notes the first file that is read otherwise, or format that is written otherwise.
pub fn note_editions(alloc: Global, wrong: &mut Wrong) {
    wrong.note("the chair", 0, is_read_to_chair(alloc, CHAIR));
    for (row, read) in READ.iter().enumerate() {
        wrong.note(read.2, row, is_read(alloc, read).unwrap_or(false));
    }
    for (row, (edition, head)) in FORMATS.iter().enumerate() {
        let is_right = goes_both_ways(alloc, *edition, head);
        wrong.note(head, row, is_right.unwrap_or(false));
    }
}
