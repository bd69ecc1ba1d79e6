//! Faults of the keys before the types.
use crate::faults::{Row, note_faults};
use crate::wrong::Wrong;
use rule_text::key::Key;
use rule_text::text_fault::TextFault;
use std::alloc::Global;

/// The line of each format.
const ONE: &str = "format = 1\n";

const TWO: &str = "format = 2\n";

const FORMAT: Key = Key::Format;

static FORMAT_ROWS: [Row; 4] = [
    (
        TextFault::Missing { key: FORMAT },
        "\

order = 5",
    ),
    (
        TextFault::WrongType { key: FORMAT },
        "\
format = \"1\"
format = 1.0
format = true
format = [1]
format.name = 1",
    ),
    (
        TextFault::OutOfRange { key: FORMAT },
        "\
format = 0
format = 3
format = -1
format = 9223372036854775807
format = 257
format = 4294967297
format = -9223372036854775808",
    ),
    (
        TextFault::Missing { key: ORDER },
        "\
format = 2",
    ),
];

const ORDER: Key = Key::Order;

const LAMBDA: Key = Key::Lambda;

static ORDER_ROWS: [Row; 4] = [
    (
        TextFault::Missing { key: ORDER },
        "\

lambda = 2",
    ),
    (
        TextFault::WrongType { key: ORDER },
        "\
order = \"4\"
order = [4]
order = 10.0
order = true
order = 1979-05-27
order.name = 4
[order]",
    ),
    (
        TextFault::OutOfRange { key: ORDER },
        "\
order = 6
order = -4
order = 260
order = 4294967300",
    ),
    (
        TextFault::Missing { key: LAMBDA },
        "\
order = +10
order = 0x0A
order = 1_0
\"order\" = 4
'order' = 4",
    ),
];

/// The orders of format 2.
static ORDER_ROWS_OF_TWO: [Row; 4] = [
    (TextFault::Missing { key: ORDER }, ""),
    (
        TextFault::WrongType { key: ORDER },
        "\
order = \"6\"",
    ),
    (
        TextFault::OutOfRange { key: ORDER },
        "\
order = 5
order = 12
order = -6",
    ),
    (
        TextFault::Missing { key: LAMBDA },
        "\
order = 6
order = 8
order = 10",
    ),
];

const GLUE: Key = Key::Glue;

static LAMBDA_ROWS: [Row; 4] = [
    (TextFault::Missing { key: LAMBDA }, ""),
    (
        TextFault::WrongType { key: LAMBDA },
        "\
lambda = 2
lambda = [2, 0, 0]
lambda = [2, 0, 0, 0, 0]
lambda = [2, 0, 0, [0]]
lambda = [65, 0, 0, \"0\"]
lambda = []
lambda = {}
lambda = [65, 0, 0]
lambda = [2.0, 0, 0, 0]
lambda = [[2, 0, 0, 0]]",
    ),
    (
        TextFault::OutOfRange { key: LAMBDA },
        "\
lambda = [65, 0, 0, 0]
lambda = [0, -65, 0, 0]
lambda = [2, 0, 1, 0]
lambda = [2, 0, 0, 1]
lambda = [9223372036854775807, 0, 0, 0]
lambda = [0, -9223372036854775808, 0, 0]",
    ),
    (
        TextFault::Missing { key: GLUE },
        "\
lambda = [64, -64, 0, 0]",
    ),
];

/// In order eight all four coefficients are free.
static EIGHT_ROWS: [Row; 2] = [
    (
        TextFault::Missing { key: GLUE },
        "\
lambda = [64, 0, 1, -64]",
    ),
    (
        TextFault::OutOfRange { key: LAMBDA },
        "\
lambda = [1, 1, 65, -1]
lambda = [1, 1, 0, -65]",
    ),
];

/// In order six the last two coefficients are 0.
static SIX_ROWS: [Row; 2] = [
    (
        TextFault::Missing { key: GLUE },
        "\
lambda = [64, -64, 0, 0]",
    ),
    (
        TextFault::OutOfRange { key: LAMBDA },
        "\
lambda = [1, 1, 1, 0]
lambda = [1, 1, 0, -1]
lambda = [65, 0, 0, 0]
lambda = [0, -65, 0, 0]",
    ),
];

const TYPES: Key = Key::TypeList;

static GLUE_ROWS: [Row; 4] = [
    (TextFault::Missing { key: GLUE }, ""),
    (
        TextFault::WrongType { key: GLUE },
        "\
glue = 1
glue = [[]]
glue = [32, true]
glue = {}
glue = [0.0]
glue = ['0']",
    ),
    (
        TextFault::OutOfRange { key: GLUE },
        "\
glue = [0, 32]
glue = [-1]
glue = [256]
glue = [4294967296]",
    ),
    (
        TextFault::Missing { key: TYPES },
        "\
glue = [0, 31]",
    ),
];

/// Notes the faults of the head that come out otherwise.
pub fn note_heads(alloc: Global, wrong: &mut Wrong) {
    note_faults(alloc, wrong, &[], &FORMAT_ROWS);
    note_faults(alloc, wrong, &[ONE], &ORDER_ROWS);
    note_faults(alloc, wrong, &[ONE, "order = 4\n"], &LAMBDA_ROWS);
    note_faults(alloc, wrong, &[ONE, "order = 8\n"], &EIGHT_ROWS);
    note_faults(alloc, wrong, &[TWO], &ORDER_ROWS_OF_TWO);
    note_faults(alloc, wrong, &[TWO, "order = 4\n"], &LAMBDA_ROWS);
    note_faults(alloc, wrong, &[TWO, "order = 6\n"], &SIX_ROWS);
    let head = "order = 4\nlambda = [2, 0, 0, 0]\n";
    note_faults(alloc, wrong, &[ONE, head], &GLUE_ROWS);
}
