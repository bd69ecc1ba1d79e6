//! Rules of either edition: the factors that each takes, and the numbers of order six.
use crate::given::{Given, note_not_refused, note_others};
use crate::shapes::{
    BISECTED, CHAIR, HALF_HEX, HALF_KITES, HALF_RHOMBS, HALF_SQUARES, RIGHT_TRIANGLE, SQUARE,
    TABLE, TURNED_SQUARE,
};
use crate::wrong::Wrong;
use dissect_check::check_fault::CheckFault;
use dissect_check::what::What;
use rule_model::edition::Edition;
use std::alloc::Global;

/// Rules that both editions take.
static BOTH: [Given; 7] = [
    (CHAIR, "", ""),
    (SQUARE, "", ""),
    (TABLE, "", ""),
    (RIGHT_TRIANGLE, "", ""),
    (HALF_RHOMBS, "", ""),
    (HALF_KITES, "", ""),
    (HALF_SQUARES, "", ""),
];

/// Rules that edition two alone takes: with a factor that turns, and of order six.
static TWO_ALONE: [Given; 3] = [
    (BISECTED, "", ""),
    (HALF_HEX, "", ""),
    (TURNED_SQUARE, "", ""),
];

/// Rules whose factor neither edition takes.
static NEITHER: [Given; 5] = [
    // squared lengths of exactly 1: of i, of -1, and of a sixth of a turn
    (BISECTED, "1,1,0,0", "0,1,0,0"),
    (CHAIR, "2,0,0,0;", "-1,0,0,0;"),
    (HALF_HEX, "2,0,0,0;", "0,1,0,0;"),
    // 1 - √2 and its product with ζ are shorter than 1, and their powers have larger and larger coefficients
    (RIGHT_TRIANGLE, "0,1,0,-1", "1,-1,0,1"),
    (RIGHT_TRIANGLE, "0,1,0,-1", "-1,1,-1,0"),
];

/// Rules of order six with a number beyond its limit.
static BEYOND_LIMITS: [(Given, CheckFault); 3] = [
    // in order six the last two coefficients are 0
    (
        (HALF_HEX, "2,0,0,0;", "2,0,1,0;"),
        CheckFault::TooMany { what: What::Factor },
    ),
    (
        (HALF_HEX, "0,1,0,0", "1,0,0,1"),
        CheckFault::TooMany {
            what: What::Vertex { kind: 0 },
        },
    ),
    // and a turn is below 6
    (
        (
            HALF_HEX,
            "0.0@1,0,0,0 0.2@4,0,0,0 0.3@2,2,0,0 0.4@0,2,0,0",
            "0.6@1,0,0,0",
        ),
        CheckFault::TooMany {
            what: What::Child { kind: 0 },
        },
    ),
];

/// The half square inflated by 1 - i, which turns it the other way.
static TURNED_BACK: [(Given, CheckFault); 1] = [(
    (BISECTED, "1,1,0,0", "1,-1,0,0"),
    CheckFault::ChildEdgeLoose {
        kind: 0,
        child: 0,
        edge: 1,
    },
)];

/// Notes the first rule that comes to something else in an edition.
pub fn note_editions(alloc: Global, wrong: &mut Wrong) {
    let refused = Some(CheckFault::WrongFactor);
    note_others(alloc, wrong, Edition::One, &BOTH, None);
    note_others(alloc, wrong, Edition::Two, &BOTH, None);
    note_others(alloc, wrong, Edition::One, &TWO_ALONE, refused);
    note_others(alloc, wrong, Edition::Two, &TWO_ALONE, None);
    note_others(alloc, wrong, Edition::One, &NEITHER, refused);
    note_others(alloc, wrong, Edition::Two, &NEITHER, refused);
    note_not_refused(alloc, wrong, Edition::One, &BEYOND_LIMITS);
    note_not_refused(alloc, wrong, Edition::Two, &BEYOND_LIMITS);
    note_not_refused(alloc, wrong, Edition::Two, &TURNED_BACK);
}
