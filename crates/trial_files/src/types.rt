//! Faults of the types.
use crate::faults::{HEAD, Row, TYPES, note_faults};
use crate::wrong::Wrong;
use rule_text::key::Key;
use rule_text::place::Place;
use rule_text::text_fault::TextFault;
use std::alloc::Global;

const LIST: Key = Key::TypeList;

const KINDS: Key = Key::KindList;

const MATE: Key = Key::Mate { ty: 0 };

const PARTS: Key = Key::Parts { ty: 0 };

const PLACE: Place = Place::InType { ty: 0 };

static LIST_ROWS: [Row; 4] = [
    (
        TextFault::Missing { key: LIST },
        "\

name = 1¶kind = 2",
    ),
    (
        TextFault::WrongType { key: LIST },
        "\
type = {}
[type]¶mate = 0¶parts = [0, 0]
type = [3]
type = [{}, 3]
type = 3
type = 'x'
type = [[]]
type = [3, {}]
type.mate = 0",
    ),
    (
        TextFault::Missing { key: KINDS },
        "\
type = []
type = [{mate = 0, parts = []}]
type = [{mate = 0, parts = [0, 0]}]",
    ),
    (
        TextFault::Missing { key: MATE },
        "\
type = [{}]",
    ),
];

/// Texts after the header of the first type.
static ENTRY_ROWS: [Row; 7] = [
    (
        TextFault::Missing { key: MATE },
        "\

name = 1¶parts = 0",
    ),
    (
        TextFault::WrongType { key: MATE },
        "\
mate = true
mate = [0]
mate = 0.0
mate.name = 0",
    ),
    (
        TextFault::WrongType { key: PARTS },
        "\
mate = 0¶parts = 0
mate = 0¶parts = [32, 1.5]
mate = 0¶parts = {}
mate = 0¶parts = [[0]]
mate = 0¶parts = [0, '0']",
    ),
    (
        TextFault::OutOfRange { key: MATE },
        "\
mate = 32
mate = -1¶parts = 0
mate = 256
mate = 9223372036854775807",
    ),
    (
        TextFault::OutOfRange { key: PARTS },
        "\
mate = 0¶parts = [32]¶name = 1
mate = 0¶parts = [-1]
mate = 0¶parts = [0, 4294967296]",
    ),
    (
        TextFault::Missing { key: PARTS },
        "\
mate = 31
mate = 0¶name = 1",
    ),
    (
        TextFault::UnknownKey { place: PLACE },
        "\
mate = 0¶parts = []¶name = 1¶[[type]]
mate = 0¶parts = []¶name = 1¶[kind]",
    ),
];

const NEXT_MATE: Key = Key::Mate { ty: 1 };

const NEXT_PLACE: Place = Place::InType { ty: 1 };

/// Texts after the first type.
static NEXT_ROWS: [Row; 3] = [
    (TextFault::Missing { key: KINDS }, ""),
    (
        TextFault::Missing { key: NEXT_MATE },
        "\
[[type]]¶parts = []",
    ),
    (
        TextFault::UnknownKey { place: NEXT_PLACE },
        "\
[[type]]¶mate = 0¶parts = [31]¶mates = 0",
    ),
];

/// Notes the faults of types that come out otherwise.
pub fn note_types(alloc: Global, wrong: &mut Wrong) {
    note_faults(alloc, wrong, &[HEAD], &LIST_ROWS);
    note_faults(alloc, wrong, &[HEAD, "[[type]]\n"], &ENTRY_ROWS);
    note_faults(alloc, wrong, &[HEAD, TYPES], &NEXT_ROWS);
}
