//! The note of each fault of a rule file, compared with the table of notes.
use crate::wrong::Wrong;
use call_notes::note::write_note;
use call_notes::rule_fault::RuleFault;
use call_notes::status::Status;
use dissect_check::check_fault::CheckFault;
use dissect_check::what::What;
use rule_text::key::Key;
use rule_text::place::Place;
use rule_text::text_fault::TextFault;
use std::alloc::Global;
use tile_io::mem_sink::MemSink;
use tile_shape::no_memory::NoMemory;

/// The faults of a rule, and the end of the note of each.
static CHECK_NOTES: [(CheckFault, &str); 18] = [
    (CheckFault::TooMany { what: What::Kinds }, "TooMany kinds"),
    (CheckFault::TooMany { what: What::Types }, "TooMany types"),
    (CheckFault::TooMany { what: What::Factor }, "TooMany factor"),
    (CheckFault::TooMany { what: What::Glue }, "TooMany glue"),
    (
        CheckFault::TooMany {
            what: What::Mate { ty: 31 },
        },
        "TooMany mate 31",
    ),
    (
        CheckFault::TooMany {
            what: What::Parts { ty: 0 },
        },
        "TooMany parts 0",
    ),
    (
        CheckFault::TooMany {
            what: What::Edges { kind: 1 },
        },
        "TooMany edges 1",
    ),
    (
        CheckFault::TooMany {
            what: What::Vertex { kind: 15 },
        },
        "TooMany vertex 15",
    ),
    (
        CheckFault::TooMany {
            what: What::Child { kind: 2 },
        },
        "TooMany child 2",
    ),
    (CheckFault::NotStar { kind: 0 }, "NotStar 0"),
    (CheckFault::WrongFactor, "WrongFactor"),
    (CheckFault::BadMate { ty: 3 }, "BadMate 3"),
    (CheckFault::BadLength { kind: 0, edge: 7 }, "BadLength 0 7"),
    (CheckFault::BadSubdivision { ty: 10 }, "BadSubdivision 10"),
    (
        CheckFault::ChildEdgeLoose {
            kind: 0,
            child: 12,
            edge: 7,
        },
        "ChildEdgeLoose 0 12 7",
    ),
    (
        CheckFault::BoundaryWrong {
            kind: 0,
            edge: 7,
            part: 1,
        },
        "BoundaryWrong 0 7 1",
    ),
    (CheckFault::Unused { kind: 15 }, "Unused 15"),
    (CheckFault::GlueWrong { ty: 4 }, "GlueWrong 4"),
];

const VERTICES: Key = Key::Vertices { kind: 12 };

const PLACE: Place = Place::InType { ty: 3 };

/// The faults of the text of a rule file, and the end of the note of each.
static TEXT_NOTES: [(TextFault, &str); 6] = [
    (TextFault::NotToml, "NotToml"),
    (TextFault::Missing { key: VERTICES }, "Missing vertices 12"),
    (
        TextFault::WrongType { key: Key::TypeList },
        "WrongType type",
    ),
    (
        TextFault::OutOfRange { key: Key::Lambda },
        "OutOfRange lambda",
    ),
    (TextFault::UnknownKey { place: PLACE }, "UnknownKey type 3"),
    (
        TextFault::UnknownKey { place: Place::Top },
        "UnknownKey top",
    ),
];

/// Returns true if the note of a fault is the code of a refused rule, its name, and this text.
fn is_noted(alloc: Global, fault: RuleFault, text: &str) -> Result<bool, NoMemory> {
    let mut notes = MemSink::new(alloc, 640, 640, Vec::new(alloc))?;
    write_note(&mut notes, &Status::RuleRefused { fault });
    let wanted = format!(in alloc; "3 RuleRefused {text}\n")?;
    Ok(notes.taken() == wanted.as_bytes())
}

/// Notes the first fault whose note is another.
pub fn note_notes(alloc: Global, wrong: &mut Wrong) {
    for (row, (fault, text)) in CHECK_NOTES.iter().enumerate() {
        let noted = is_noted(alloc, RuleFault::Check(*fault), text);
        wrong.note("check notes", row, noted.unwrap_or(false));
    }
    for (row, (fault, text)) in TEXT_NOTES.iter().enumerate() {
        let noted = is_noted(alloc, RuleFault::Text(*fault), text);
        wrong.note("text notes", row, noted.unwrap_or(false));
    }
}
