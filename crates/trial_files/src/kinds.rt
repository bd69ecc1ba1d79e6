//! Faults of the kinds, and of a further key at the top.
use crate::faults::{HEAD, Row, TYPES, note_faults};
use crate::wrong::Wrong;
use rule_text::key::Key;
use rule_text::place::Place;
use rule_text::text_fault::TextFault;
use std::alloc::Global;

const LIST: Key = Key::KindList;

const VERTICES: Key = Key::Vertices { kind: 0 };

const EDGES: Key = Key::Edges { kind: 0 };

const CHILDREN: Key = Key::Children { kind: 0 };

const PLACE: Place = Place::InKind { kind: 0 };

/// Texts after an empty list of types.
static TOP_ROWS: [Row; 4] = [
    (TextFault::Missing { key: LIST }, ""),
    (
        TextFault::WrongType { key: LIST },
        "\
kind = 0
kind = {}
kind = [3]
kind = [[]]
kind = [{}, 3]
kind.edges = []",
    ),
    (
        TextFault::Missing { key: VERTICES },
        "\
kind = [{}]",
    ),
    (
        TextFault::UnknownKey { place: TOP },
        "\
kind = []¶'' = 1",
    ),
];

/// Texts after the types.
static LIST_ROWS: [Row; 2] = [
    (TextFault::Missing { key: LIST }, ""),
    (
        TextFault::WrongType { key: LIST },
        "\
[kind]",
    ),
];

/// Texts after the header of the first kind.
static VERTEX_ROWS: [Row; 3] = [
    (
        TextFault::Missing { key: VERTICES },
        "\

name = 1¶edges = 0",
    ),
    (
        TextFault::WrongType { key: VERTICES },
        "\
vertices = 0
vertices = [0]
vertices = [[65,0,0,0],[0,0,0]]
vertices = [[0,0,0,0,0]]
vertices = [[0,0,0,'']]
vertices = {}
vertices = [[]]
vertices = [[0,0,0,0],0]
vertices = [[[0,0,0,0]]]",
    ),
    (
        TextFault::OutOfRange { key: VERTICES },
        "\
vertices = [[0,0,0,0],[65,0,0,0]]
vertices = [[0,0,1,0]]¶edges = 0
vertices = [[0,0,0,9223372036854775807]]",
    ),
];

/// Texts after the vertices of the first kind.
static EDGE_ROWS: [Row; 3] = [
    (TextFault::Missing { key: EDGES }, ""),
    (
        TextFault::WrongType { key: EDGES },
        "\
edges = {}
edges = [32, []]
edges = 0
edges = [[0]]
edges = [0.0]",
    ),
    (
        TextFault::OutOfRange { key: EDGES },
        "\
edges = [32]¶children = 0
edges = [-1]
edges = [0, 256]",
    ),
];

const NEXT: Key = Key::Vertices { kind: 1 };

const TOP: Place = Place::Top;

/// Texts after the edges of the first kind.
static CHILD_ROWS: [Row; 6] = [
    (
        TextFault::Missing { key: CHILDREN },
        "\

name = 1",
    ),
    (
        TextFault::WrongType { key: CHILDREN },
        "\
children = 0
children = [[16,0,0,0,0,0],[0,0,0,0,0]]
children = [[0,0,0,0,0,0,0]]
children = [[0,0,0,0,0,0.0]]
children = {}
children = [0]
children = [[]]
children = [[0,0,[0,0,0,0]]]
children = [[0,0,0,0,0,0],0]",
    ),
    (
        TextFault::OutOfRange { key: CHILDREN },
        "\
children = [[16,0,0,0,0,0]]
children = [[-1,0,0,0,0,0]]
children = [[0,4,0,0,0,0]]
children = [[0,-1,0,0,0,0]]
children = [[0,0,65,0,0,0]]
children = [[0,0,0,0,0,1]]¶name = 1
children = [[256,0,0,0,0,0]]
children = [[0,4294967296,0,0,0,0]]
children = [[0,0,0,-65,0,0]]",
    ),
    (
        TextFault::UnknownKey { place: PLACE },
        "\
children = [[15,3,64,-64,0,0]]¶name = 1
children = []¶name = 1¶[[kind]]",
    ),
    (
        TextFault::Missing { key: NEXT },
        "\
children = []¶[[kind]]¶[more]",
    ),
    (
        TextFault::UnknownKey { place: TOP },
        "\
children = []¶[more]",
    ),
];

/// The head of the first kind, a vertex, and an edge.
const KIND: &str = "[[kind]]\n";

const ONE_VERTEX: &str = "vertices = [[0,0,0,0]]\n";

const ONE_EDGE: &str = "edges = [0]\n";

/// Notes the faults of kinds that come out otherwise.
pub fn note_kinds(alloc: Global, wrong: &mut Wrong) {
    note_faults(alloc, wrong, &[HEAD, "type = []\n"], &TOP_ROWS);
    note_faults(alloc, wrong, &[HEAD, TYPES], &LIST_ROWS);
    note_faults(alloc, wrong, &[HEAD, TYPES, KIND], &VERTEX_ROWS);
    note_faults(alloc, wrong, &[HEAD, TYPES, KIND, ONE_VERTEX], &EDGE_ROWS);
    let pieces = [HEAD, TYPES, KIND, ONE_VERTEX, ONE_EDGE];
    note_faults(alloc, wrong, &pieces, &CHILD_ROWS);
}
