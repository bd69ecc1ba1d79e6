//! The contacts and the uses of rules, compared with their description.
//!
//! They are printed for each kind, of the rule typed here and accepted by the check, and of the built-in
//! rule. The expected text is typed from the description.
use crate::given::rule;
use crate::printed::{contacts_text, uses_text};
use crate::shapes;
use crate::wrong::Wrong;
use builtin_rules::builtin::{builtin, rule_of};
use builtin_rules::name::Name;
use dissect_check::check::check;
use edge_tables::tables::Tables;
use rule_model::checked::Checked;
use std::alloc::{AllocError, Global};
use tile_shape::no_memory::NoMemory;

/// The kinds of the chair. Each line is a kind: its contacts, its uses, and the edge along which it is glued.
const CHAIR: &str = "\
00-13 01-36 06-21 07-14 11-30 12-37 15-20 16-27 | 0: 10 31; 1: 32 33; 2: 34 35; 3: 02 03; 4: 04 05; 5: 22 23; 6: 24 25; 7: 26 17; / 0/0 1/0 2/0 3/0 / none
";

/// The halves of the thin rhomb, and those of the thick one.
const RHOMBS: &str = "\
00-10 | 0: 12 01; 1: 02; 2: 11; / 0/0 2/3 / 1
02-12 | 0: 11; 1: 00; 2: 01 10; / 0/1 2/2 / 1
02-20 12-22 | 0: 21 10; 1: 11 00; 2: 01; / 1/0 0/2 1/3 / 1
00-22 10-20 | 0: 01; 1: 02 11; 2: 12 21; / 1/1 1/2 0/3 / 1
";

/// The halves of the kite, and those of the dart.
const KITES_AND_DARTS: &str = "\
00-11 10-22 | 0: 02 12; 1: 20; 2: 21 01; / 2/0 1/1 1/3 / 2
02-11 12-20 | 0: 01 21; 1: 22; 2: 10 00; / 1/0 2/1 1/2 / 0
00-11 | 0: 01; 1: 02 12; 2: 10; / 0/0 0/2 / 2
02-11 | 0: 12; 1: 10 00; 2: 01; / 0/1 0/3 / 0
";

/// The rhomb, and the halves of the square.
const RHOMBS_AND_SQUARES: &str = "\
01-12 02-50 11-63 20-32 21-60 31-42 41-61 51-62 | 0: 00 10; 1: 22 33; 2: 30 40; 3: 52 03; / 0/0 3/0 6/0 3/1 4/1 3/2 4/2 / none
01-41 02-31 12-43 20-32 21-40 | 0: 11 22 33; 1: 30 00; 2: 42 10; / 1/0 4/0 0/1 1/1 2/2 / 0
00-32 01-42 10-40 21-43 22-31 | 0: 12 41; 1: 02 33; 2: 30 20 11; / 2/0 5/0 2/1 0/2 1/2 / 2
";

/// The half-hex.
const HALF_HEX: &str = "\
01-12 02-22 03-32 11-23 21-33 | 0: 00 13; 1: 14 10; 2: 24 20; 3: 34 30; 4: 31 04; / 0/0 1/0 2/0 3/0 / none
";

/// The square, each of whose edges has a type of its own.
const TYPED_SQUARE: &str = "\
01-13 02-30 12-20 23-31 | 0: 00 10; 1: 11 21; 2: 22 32; 3: 33 03; / 0/0 1/0 2/0 3/0 / none
";

/// Rules as typed, the name of each that is built in, and its kinds.
static ROWS: [(&str, Option<Name>, &str); 6] = [
    (shapes::CHAIR, Some(Name::Chair), CHAIR),
    (shapes::HALF_RHOMBS, Some(Name::P3), RHOMBS),
    (shapes::HALF_KITES, Some(Name::P2), KITES_AND_DARTS),
    (
        shapes::HALF_SQUARES,
        Some(Name::AmmannBeenker),
        RHOMBS_AND_SQUARES,
    ),
    (shapes::HALF_HEX, Some(Name::HalfHex), HALF_HEX),
    (shapes::TYPED_SQUARE, None, TYPED_SQUARE),
];

/// The edge along which a kind is glued, where there is such a kind and such an edge.
fn glue_edge_there(checked: &Checked, kind: u8) -> Option<u8> {
    if usize::from(kind) >= checked.rule().kind_count() {
        return None;
    }
    checked.glue_edge(kind)
}

/// Puts a kind of a rule as a line.
fn put_kind(
    alloc: Global,
    text: &mut String,
    checked: &Checked,
    kind: u8,
) -> Result<(), AllocError> {
    let contacts = contacts_text(alloc, checked.tables(), kind)?;
    let uses = uses_text(alloc, checked.uses(), kind)?;
    match glue_edge_there(checked, kind) {
        Some(edge) => write!(text, "{contacts} / {uses} / {edge}\n"),
        None => write!(text, "{contacts} / {uses} / none\n"),
    }
}

/// The kinds of a rule, as lines.
fn kinds_text(alloc: Global, checked: &Checked) -> Result<String, AllocError> {
    let mut text = String::new(alloc);
    for kind in 0..checked.uses().kinds() {
        put_kind(alloc, &mut text, checked, kind)?;
    }
    Ok(text)
}

/// Returns true if the kinds of a rule are these lines.
fn has_kinds(alloc: Global, checked: &Checked, lines: &str) -> Result<bool, AllocError> {
    Ok(kinds_text(alloc, checked)?.as_str() == lines)
}

/// The mate of an edge's type, where there is such an edge.
fn mate_there(tables: &Tables, kind: u8, edge: u8) -> Option<u8> {
    if kind >= tables.kinds() || edge >= tables.edges(kind) {
        return None;
    }
    Some(tables.mate(tables.edge_type(kind, edge)))
}

/// Returns true if the built-in rule of a name has these kinds.
fn is_built_in(alloc: Global, name: Name, lines: &str) -> Result<bool, NoMemory> {
    let kinds = rule_of(alloc, name)?.kinds.len();
    let is_right = has_kinds(alloc, &builtin(alloc, name)?, lines)?;
    Ok(is_right && kinds == lines.split('\n').count().saturating_sub(1))
}

/// Returns true if the rule of a text has these kinds.
fn is_described(alloc: Global, text: &str, lines: &str) -> Result<bool, NoMemory> {
    Ok(match check(alloc, rule(alloc, text)?) {
        Ok(checked) => {
            let count = checked.rule().kind_count();
            count == usize::from(checked.uses().kinds()) && has_kinds(alloc, &checked, lines)?
        }
        Err(_) => false,
    })
}

/// Returns true if a copy of the square's tables has one kind, the mate of its last edge, and no other edge.
fn is_copied(alloc: Global, checked: &Checked) -> Result<bool, NoMemory> {
    let tables = checked.tables().copy(alloc)?;
    Ok(
        tables.kinds() == 1
            && mate_there(&tables, 0, 3) == Some(1)
            && mate_there(&tables, 0, 4).is_none(),
    )
}

/// Returns true if the mates of a copy of the square's tables are right.
fn is_square_copied(alloc: Global) -> Result<bool, NoMemory> {
    Ok(match check(alloc, rule(alloc, shapes::TYPED_SQUARE)?) {
        Ok(checked) => is_copied(alloc, &checked)?,
        Err(_) => false,
    })
}

/// Notes the first rule that isn't as it is described: as typed, and as it is built in.
pub fn note_described(alloc: Global, wrong: &mut Wrong) {
    for (row, (text, name, lines)) in ROWS.iter().enumerate() {
        let is_right = is_described(alloc, text, lines);
        wrong.note("described", row, is_right.unwrap_or(false));
        if let Some(name) = name {
            let is_right = is_built_in(alloc, *name, lines);
            wrong.note("built in", row, is_right.unwrap_or(false));
        }
    }
    let is_right = is_square_copied(alloc);
    wrong.note("mates of a copy", 0, is_right.unwrap_or(false));
}
