//! Tiles across an edge, on the chair, and how many different blocks the flat tables of rules have.
ghost use Rattle.std.specs.Prelude.{◌≡◌, ◌<◌};
ghost use Rattle.rule_model.specs.Checked.{rule_contacts};

use crate::given::rule;
use crate::shapes::{CHAIR, HALF_HEX, HALF_KITES, HALF_RHOMBS, HALF_SQUARES};
use crate::wrong::Wrong;
use dissect_check::check::check;
use edge_tables::steps::Steps;
use rule_model::checked::Checked;
use std::alloc::{AllocError, Global};
use std::marker::Brand;
use std::sync::ledger::{Blank, Ledger};
use tile_shape::address::Address;
use tile_shape::no_memory::NoMemory;
use tile_shape::reading::read_address;
use transducer_core::crossing::Crossing;
use transducer_core::laws::return_law;
use transducer_core::outside::Outside;
use transducer_core::transducer::Transducer;

/// Tiles of the chair and edges of them, and what is across: a tile and the edge back, or an edge of the
/// supertile and a part of it. In a text `«PIECE×TIMES»` is a piece repeated.
static ROWS: [(&str, u8, &str); 10] = [
    ("0:0/0", 0, "0:1/0 3"),
    ("0:1/0", 3, "0:0/0 0"),
    ("0:0/0,1/0", 4, "0:1/0,0/0 7"),
    ("0:0/0", 4, "outside 4 0"),
    ("0:0/0", 5, "outside 4 1"),
    ("0:3/0,1/0", 1, "outside 0 0"),
    ("0:", 6, "outside 6 0"),
    ("0:", 8, "no edge"),
    // all the way up and down
    ("0:«0/0,×63»0/0", 4, "outside 4 0"),
    ("0:«0/0,×63»1/0", 4, "0:«1/0,×63»0/0 7"),
];

/// Returns a text with its pieces repeated.
fn spelled(alloc: Global, text: &str) -> Result<String, AllocError> {
    let mut all = String::new(alloc);
    for part in text.split('«') {
        let (repeated, rest) = part.split_once('»').unwrap_or(("", part));
        let (piece, times) = repeated.split_once('×').unwrap_or(("", ""));
        let times: u32 = times.parse().unwrap_or(0);
        for _ in 0..times {
            all.push_str(piece)?;
        }
        all.push_str(rest)?;
    }
    Ok(all)
}

/// What is across, and what comes of the way back; None where there is no such edge.
fn across<L: Ledger>(
    checked: &Checked,
    transducer: &Transducer,
    addr: &Address,
    edge: u8,
    steps: &mut Steps<L>,
) -> Option<(Result<Crossing, Outside>, Option<Crossing>)>
    requires its_tables { transducer.now ≡ rule_contacts checked.now }
{
    if !checked.uses().fits(addr) || edge >= checked.tables().edges(addr.kind) {
        return None;
    }
    let answer = transducer.step_across(addr, edge, steps);
    Some((answer, return_law(transducer, addr, edge, steps)))
}

/// What is across an edge of a tile, as a text. The way back leads home where there is a tile across.
fn told<L: Ledger>(
    alloc: Global,
    checked: &Checked,
    transducer: &Transducer,
    tile: (&Address, u8),
    steps: &mut Steps<L>,
) -> Result<String, AllocError>
    requires its_tables { transducer.now ≡ rule_contacts checked.now }
{
    let (addr, edge) = tile;
    let (answer, home) = match across(checked, transducer, addr, edge, steps) {
        Some((answer, home)) => (answer, home),
        None => return "no edge".to_string(alloc),
    };
    match (&answer, &home) {
        (Ok(there), Some(home)) if home.addr == *addr && home.edge == edge => {
            format!(in alloc; "{} {}", there.addr, there.edge)
        }
        (Err(outside), None) => format!(in alloc; "outside {} {}", outside.edge, outside.part),
        _ => "the way back leads elsewhere".to_string(alloc),
    }
}

/// Returns true if a row comes out as it says.
fn is_right<L: Ledger>(
    alloc: Global,
    checked: &Checked,
    transducer: &Transducer,
    row: &(&str, u8, &str),
    steps: &mut Steps<L>,
) -> Result<bool, AllocError>
    requires its_tables { transducer.now ≡ rule_contacts checked.now }
{
    let tile = spelled(alloc, row.0)?;
    let wanted = spelled(alloc, row.2)?;
    Ok(match read_address(checked.uses(), tile.as_bytes()) {
        Ok(addr) => {
            told(alloc, checked, transducer, (&addr, row.1), steps)?.as_str() == wanted.as_str()
        }
        Err(_) => false,
    })
}

/// Notes the first row that comes out otherwise.
fn note_rows<L: Ledger>(
    alloc: Global,
    wrong: &mut Wrong,
    checked: &Checked,
    transducer: &Transducer,
    blank: Blank,
)
    requires its_tables { transducer.now ≡ rule_contacts checked.now }
    requires name { blank.name ≡ L.name }
    requires parts { blank.parts ≡ L.parts }
    requires some { 0 < blank.parts }
{
    let mut steps = Steps::<L>::new(blank);
    for (number, row) in ROWS.iter().enumerate() {
        let is_right = is_right(alloc, checked, transducer, row, &mut steps);
        wrong.note("crossings", number, is_right.unwrap_or(false));
    }
}

/// Rules, and how many different contact blocks and part blocks their tables have.
static BLOCKS: [(&str, (u16, u16)); 5] = [
    (CHAIR, (4, 8)),
    (HALF_RHOMBS, (10, 10)),
    (HALF_KITES, (10, 9)),
    (HALF_SQUARES, (17, 10)),
    (HALF_HEX, (4, 5)),
];

/// Returns true if the tables of a rule have so many different contact blocks and part blocks.
fn has_blocks(alloc: Global, text: &str, wanted: (u16, u16)) -> Result<bool, NoMemory> {
    Ok(match check(alloc, rule(alloc, text)?) {
        Ok(checked) => {
            let transducer = Transducer::compile(alloc, checked.tables())?;
            let flat = transducer.flat();
            (flat.contact_blocks(), flat.part_blocks()) == wanted
        }
        Err(_) => false,
    })
}

/// Notes the first crossing, and the first number of blocks, that comes out otherwise.
pub fn note_crossings(alloc: Global, wrong: &mut Wrong) -> Result<(), NoMemory> {
    for (row, (text, wanted)) in BLOCKS.iter().enumerate() {
        let is_right = has_blocks(alloc, text, *wanted);
        wrong.note("blocks", row, is_right.unwrap_or(false));
    }
    if let Ok(checked) = check(alloc, rule(alloc, CHAIR)?) {
        let transducer = Transducer::compile(alloc, checked.tables())?;
        note_rows::<Brand>(alloc, wrong, &checked, &transducer, Blank::new(1));
    } else {
        wrong.note("chair", 0, false);
    }
    Ok(())
}
