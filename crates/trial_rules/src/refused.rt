//! Rules that are refused, each for the cause named; and the laws of the check.
use crate::given::{Given, fault_of, note_not_refused, rule};
use crate::shapes::{BISECTED, CHAIR, HALF_RHOMBS, RIGHT_TRIANGLE, SQUARE};
use crate::wrong::Wrong;
use dissect_check::check::acceptance_law;
use dissect_check::check_fault::CheckFault;
use dissect_check::laws::{accepted_children_law, clauses_law};
use dissect_check::what::What;
use edge_tables::laws::coherence_law;
use rule_model::edition::Edition;
use std::alloc::{AllocError, Global};
use std::test::Fail;
use transducer_core::laws::{boundary_law, touch_law, trace_law};

/// Rules with a number beyond its limit.
static BEYOND_LIMITS: [(Given, CheckFault); 10] = [
    (
        (
            BISECTED,
            "1,1,0,0; ; 0:1 1:0,0; 0,0,0,0 1,0,0,0 0,1,0,0 | 0,1,0 | 0.3@0,1,0,0 0.2@0,1,0,0",
            "2,0,0,0; ; 0:0,0",
        ),
        CheckFault::TooMany { what: What::Kinds },
    ),
    (
        (CHAIR, "0:0,0", ""),
        CheckFault::TooMany { what: What::Types },
    ),
    (
        (CHAIR, "2,0,0,0;", "65,0,0,0;"),
        CheckFault::TooMany { what: What::Factor },
    ),
    (
        (CHAIR, "; 0:0,0", "5; 0:0,0"),
        CheckFault::TooMany { what: What::Glue },
    ),
    (
        (CHAIR, "0:0,0", "1:0,0"),
        CheckFault::TooMany {
            what: What::Mate { ty: 0 },
        },
    ),
    (
        (CHAIR, "0:0,0", "0:"),
        CheckFault::TooMany {
            what: What::Parts { ty: 0 },
        },
    ),
    (
        (CHAIR, "0,0,0,0,0,0,0,0", "0,0,0,0,0,0,0,0,0"),
        CheckFault::TooMany {
            what: What::Edges { kind: 0 },
        },
    ),
    // in order four a point has no third coefficient
    (
        (CHAIR, "1,1,0,0 1,2,0,0", "1,1,1,0 1,2,0,0"),
        CheckFault::TooMany {
            what: What::Vertex { kind: 0 },
        },
    ),
    // a turn of order four is below 4
    (
        (CHAIR, "0.3@0,4,0,0", "0.4@0,4,0,0"),
        CheckFault::TooMany {
            what: What::Child { kind: 0 },
        },
    ),
    (
        (
            CHAIR,
            "0.0@1,1,0,0 0.1@4,0,0,0 0.3@0,4,0,0",
            "0.0@0,0,0,0 0.0@0,0,0,0 0.0@0,0,0,0 0.0@0,0,0,0 0.0@0,0,0,0 0.0@0,0,0,0 0.0@0,0,0,0 0.0@0,0,0,0 0.0@0,0,0,0 0.0@0,0,0,0 0.0@0,0,0,0 0.0@0,0,0,0 0.0@0,0,0,0 0.0@0,0,0,0 0.0@0,0,0,0 0.0@0,0,0,0",
        ),
        CheckFault::TooMany {
            what: What::Child { kind: 0 },
        },
    ),
];

/// Rules that a clause refuses.
static REFUSED: [(Given, CheckFault); 26] = [
    // 1 doesn't grow; 2 + i isn't real; -2 is less than 1; 1 - √2 is, too
    ((CHAIR, "2,0,0,0;", "1,0,0,0;"), CheckFault::WrongFactor),
    ((CHAIR, "2,0,0,0;", "2,1,0,0;"), CheckFault::WrongFactor),
    ((CHAIR, "2,0,0,0;", "-2,0,0,0;"), CheckFault::WrongFactor),
    (
        (RIGHT_TRIANGLE, "0,1,0,-1", "1,-1,0,1"),
        CheckFault::WrongFactor,
    ),
    // type 1 is the mate of both types
    (
        (CHAIR, "0:0,0", "1:0,0 1:0,0"),
        CheckFault::BadMate { ty: 0 },
    ),
    // the hypotenuse of the right triangle is called a leg
    (
        (RIGHT_TRIANGLE, "0,1,0 | 0.3@0,1,0,0", "0,0,0 | 0.3@0,1,0,0"),
        CheckFault::BadLength { kind: 0, edge: 1 },
    ),
    // the diagonal of a thin rhomb is called a side
    (
        (HALF_RHOMBS, "0,4,3", "0,0,3"),
        CheckFault::BadLength { kind: 0, edge: 1 },
    ),
    // x is cut in the other order, and its mate as before
    (
        (HALF_RHOMBS, "7:7,1", "7:1,7"),
        CheckFault::BadSubdivision { ty: 6 },
    ),
    // a hole: child 1 of the chair is missing
    (
        (CHAIR, "0.0@1,1,0,0 0.1@4,0,0,0", "0.1@4,0,0,0"),
        CheckFault::ChildEdgeLoose {
            kind: 0,
            child: 0,
            edge: 0,
        },
    ),
    // an overlap of equal area: child 1 lies on child 0
    (
        (CHAIR, "0.0@1,1,0,0", "0.0@0,0,0,0"),
        CheckFault::ChildEdgeLoose {
            kind: 0,
            child: 0,
            edge: 0,
        },
    ),
    // wound twice: each child is given twice
    (
        (
            CHAIR,
            "0.3@0,4,0,0",
            "0.3@0,4,0,0 0.0@0,0,0,0 0.0@1,1,0,0 0.1@4,0,0,0 0.3@0,4,0,0",
        ),
        CheckFault::ChildEdgeLoose {
            kind: 0,
            child: 0,
            edge: 0,
        },
    ),
    // a square of side 3 isn't filled by four: the right side of child 1 is free
    (
        (SQUARE, "2,0,0,0", "3,0,0,0"),
        CheckFault::ChildEdgeLoose {
            kind: 0,
            child: 1,
            edge: 1,
        },
    ),
    // the right triangle's second half turned about its height
    (
        (RIGHT_TRIANGLE, "0.5@0,1,0,0", "0.4@0,1,0,0"),
        CheckFault::ChildEdgeLoose {
            kind: 0,
            child: 0,
            edge: 2,
        },
    ),
    // a leg of the right triangle grows to a hypotenuse and isn't one leg
    (
        (RIGHT_TRIANGLE, "0:1", "0:0"),
        CheckFault::BoundaryWrong {
            kind: 0,
            edge: 0,
            part: 0,
        },
    ),
    // an edge of the chair has two parts, and not one; nor three
    (
        (CHAIR, "0:0,0", "0:0"),
        CheckFault::BoundaryWrong {
            kind: 0,
            edge: 0,
            part: 1,
        },
    ),
    (
        (CHAIR, "0:0,0", "0:0,0,0"),
        CheckFault::BoundaryWrong {
            kind: 0,
            edge: 0,
            part: 2,
        },
    ),
    // the two parts of the long edge of a thick rhomb's half are in the other order
    (
        (HALF_RHOMBS, "7:7,1 6:0,6", "7:1,7 6:6,0"),
        CheckFault::BoundaryWrong {
            kind: 2,
            edge: 1,
            part: 0,
        },
    ),
    (
        (
            CHAIR,
            "0.3@0,4,0,0",
            "0.3@0,4,0,0; 1,1,0,0 1,2,0,0 0,2,0,0 0,1,0,0 0,0,0,0 1,0,0,0 2,0,0,0 2,1,0,0 | 0,0,0,0,0,0,0,0 | 0.0@0,0,0,0 0.0@1,1,0,0 0.1@4,0,0,0 0.3@0,4,0,0",
        ),
        CheckFault::Unused { kind: 1 },
    ),
    // a type that is its own mate has no two sides
    (
        (CHAIR, "; 0:0,0", "0; 0:0,0"),
        CheckFault::GlueWrong { ty: 0 },
    ),
    // u and its mate are at two kinds each
    (
        (HALF_RHOMBS, "4,6", "4,6,0"),
        CheckFault::GlueWrong { ty: 0 },
    ),
    // w is given twice, so each half has an edge of an earlier glue type
    (
        (HALF_RHOMBS, "4,6", "4,6,4"),
        CheckFault::GlueWrong { ty: 4 },
    ),
    // clockwise
    (
        (
            CHAIR,
            "1,1,0,0 1,2,0,0 0,2,0,0 0,1,0,0 0,0,0,0 1,0,0,0 2,0,0,0 2,1,0,0",
            "2,1,0,0 2,0,0,0 1,0,0,0 0,0,0,0 0,1,0,0 0,2,0,0 1,2,0,0 1,1,0,0",
        ),
        CheckFault::NotStar { kind: 0 },
    ),
    // from the corner of a domino, the first edge and the second are seen as one
    (
        (
            CHAIR,
            "1,1,0,0 1,2,0,0 0,2,0,0 0,1,0,0 0,0,0,0 1,0,0,0 2,0,0,0 2,1,0,0 | 0,0,0,0,0,0,0,0",
            "0,0,0,0 1,0,0,0 2,0,0,0 2,1,0,0 1,1,0,0 0,1,0,0 | 0,0,0,0,0,0",
        ),
        CheckFault::NotStar { kind: 0 },
    ),
    // a square slit from its middle to a corner: the last edge runs back along the first
    (
        (
            CHAIR,
            "1,1,0,0 1,2,0,0 0,2,0,0 0,1,0,0 0,0,0,0 1,0,0,0 2,0,0,0 2,1,0,0 | 0,0,0,0,0,0,0,0",
            "0,0,0,0 1,0,0,0 0,1,0,0 -1,0,0,0 0,-1,0,0 1,0,0,0 | 0,0,0,0,0,0",
        ),
        CheckFault::NotStar { kind: 0 },
    ),
    // around vertex 0 by more than a full turn: the last triangle lies on the first
    (
        (
            CHAIR,
            "1,1,0,0 1,2,0,0 0,2,0,0 0,1,0,0 0,0,0,0 1,0,0,0 2,0,0,0 2,1,0,0 | 0,0,0,0,0,0,0,0",
            "0,0,0,0 1,0,0,0 0,1,0,0 -1,0,0,0 0,-1,0,0 2,1,0,0 | 0,0,0,0,0,0",
        ),
        CheckFault::NotStar { kind: 0 },
    ),
    // a pentagram, whose five points are powers of a fifth of a turn, two fifths apart
    (
        (
            HALF_RHOMBS,
            "0,0,0,0 1,0,0,0 0,1,0,0 | 0,4,3",
            "1,0,0,0 -1,1,-1,1 0,0,0,-1 0,0,1,0 0,-1,0,0 | 0,0,0,0,0",
        ),
        CheckFault::NotStar { kind: 0 },
    ),
];

/// The chair in sixteen kinds, each made of the next.
fn sixteen(alloc: Global) -> Result<String, AllocError> {
    let mut text = String::from_str(alloc, "4; 2,0,0,0; ; 0:0,0")?;
    for kind in 0..16u8 {
        let next = (kind + 1) % 16;
        write!(
            text,
            "; {VERTICES} | {EDGES} | {next}.0@0,0,0,0 {next}.0@1,1,0,0"
        )?;
        write!(text, " {next}.1@4,0,0,0 {next}.3@0,4,0,0")?;
    }
    Ok(text)
}

/// The vertices and the edges of the chair, and one more kind like it.
const VERTICES: &str = "1,1,0,0 1,2,0,0 0,2,0,0 0,1,0,0 0,0,0,0 1,0,0,0 2,0,0,0 2,1,0,0";

const EDGES: &str = "0,0,0,0,0,0,0,0";

const ONE_MORE: &str =
    "; 1,1,0,0 1,2,0,0 0,2,0,0 0,1,0,0 0,0,0,0 1,0,0,0 2,0,0,0 2,1,0,0 | 0,0,0,0,0,0,0,0 | 0.0@0,0,0,0 0.0@1,1,0,0 0.1@4,0,0,0 0.3@0,4,0,0";

/// Returns true if the chair in sixteen kinds is accepted, and has too many with one more.
fn are_sixteen(alloc: Global) -> Result<bool, AllocError> {
    let mut text = sixteen(alloc)?;
    let is_accepted = fault_of(alloc, Edition::One, text.as_str())?.is_none();
    text.push_str(ONE_MORE)?;
    let fault = fault_of(alloc, Edition::One, text.as_str())?;
    let wanted = CheckFault::TooMany { what: What::Kinds };
    Ok(is_accepted && fault == Some(wanted))
}

/// Notes the first rule that isn't refused for its cause.
pub fn note_refused(alloc: Global, wrong: &mut Wrong) {
    note_not_refused(alloc, wrong, Edition::One, &BEYOND_LIMITS);
    note_not_refused(alloc, wrong, Edition::One, &REFUSED);
    wrong.note("sixteen kinds", 0, are_sixteen(alloc).unwrap_or(false));
}

#[test]
fn laws(rt: HostRuntime) -> Result<(), Fail> {
    acceptance_law(&rule(rt.alloc(), CHAIR)?);
    clauses_law();
    accepted_children_law();
    coherence_law();
    touch_law();
    trace_law();
    boundary_law();
    Ok(())
}
