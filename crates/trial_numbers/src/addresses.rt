//! Addresses and their texts.
use crate::wrong::{NONE, Wrong};
use std::alloc::{AllocError, Global};
use tile_shape::address::{Address, Full};
use tile_shape::address_fault::AddressFault;
use tile_shape::no_memory::NoMemory;
use tile_shape::reading::read_address;
use tile_shape::step::Step;
use tile_shape::uses::Uses;
use tile_shape::writing::{write_address, written_and_read};

/// One kind, with four children of that kind.
fn one_kind(alloc: Global) -> Result<Uses, NoMemory> {
    let row = [0u8; 4].to_vec(alloc)?;
    let mut children = Vec::new(alloc);
    children.push(row)?;
    Uses::new(alloc, &children)
}

/// An address of this kind, with digits from fine to coarse.
fn address(kind: u8, digits: &[(u8, u8)]) -> Address {
    let mut addr = Address::new(kind);
    for (child, parent) in digits {
        let _ = addr.push_coarse(Step {
            child: *child,
            parent: *parent,
        });
    }
    addr
}

/// A text with a piece repeated: its front, the piece, how many times, and its end.
type Pieces = (&'static str, &'static str, usize, &'static str);

/// Puts these pieces together.
fn text_of(alloc: Global, pieces: &Pieces) -> Result<String, AllocError> {
    let (front, piece, times, end) = pieces;
    let mut text = String::from_str(alloc, front)?;
    for _ in 0..*times {
        text.push_str(piece)?;
    }
    text.push_str(end)?;
    Ok(text)
}

/// A text and the depth of the address that is read, or the fault: the first byte that can't go on, or the
/// first misfit.
static READ: [(Pieces, Result<u8, AddressFault>); 23] = [
    (("", "", 0, ""), Err(AddressFault::BadText { place: 0 })),
    (("x", "", 0, ""), Err(AddressFault::BadText { place: 0 })),
    (("3", "", 0, ""), Err(AddressFault::BadText { place: 1 })),
    (("01:", "", 0, ""), Err(AddressFault::BadText { place: 1 })),
    (
        ("1000:", "", 0, ""),
        Err(AddressFault::BadText { place: 3 }),
    ),
    (("0:,", "", 0, ""), Err(AddressFault::BadText { place: 2 })),
    (("0:1", "", 0, ""), Err(AddressFault::BadText { place: 3 })),
    (("0:1,", "", 0, ""), Err(AddressFault::BadText { place: 3 })),
    (("0:1/", "", 0, ""), Err(AddressFault::BadText { place: 4 })),
    (
        ("0:1/0,", "", 0, ""),
        Err(AddressFault::BadText { place: 6 }),
    ),
    (
        ("0:1/0,2", "", 0, ""),
        Err(AddressFault::BadText { place: 7 }),
    ),
    (
        ("0:1/0;", "", 0, ""),
        Err(AddressFault::BadText { place: 5 }),
    ),
    (
        ("0:1/00", "", 0, ""),
        Err(AddressFault::BadText { place: 5 }),
    ),
    (
        ("999:999/999,1/1 ", "", 0, ""),
        Err(AddressFault::BadText { place: 15 }),
    ),
    (
        ("0:4/0", "", 0, ""),
        Err(AddressFault::WrongChild { level: 0 }),
    ),
    (
        ("1:", "", 0, ""),
        Err(AddressFault::UnknownKind { level: 0 }),
    ),
    (
        ("0:0/1", "", 0, ""),
        Err(AddressFault::UnknownKind { level: 1 }),
    ),
    (
        ("256:", "", 0, ""),
        Err(AddressFault::UnknownKind { level: 0 }),
    ),
    (
        ("0:256/0", "", 0, ""),
        Err(AddressFault::WrongChild { level: 0 }),
    ),
    (
        ("0:0/0,0/256", "", 0, ""),
        Err(AddressFault::UnknownKind { level: 2 }),
    ),
    // 64 digits, and more
    (("0:0/0", ",0/0", 63, ""), Ok(64)),
    (("0:0/0", ",0/0", 64, ""), Err(AddressFault::TooDeep)),
    (
        ("0:0/0", ",0/0", 64, ","),
        Err(AddressFault::BadText { place: 262 }),
    ),
];

/// The depth of the address that is read.
fn depth_read(uses: &Uses, text: &[u8]) -> Result<u8, AddressFault> {
    Ok(read_address(uses, text)?.depth())
}

/// A kind, digits from fine to coarse, the text of that address, and how many bytes it has.
type Written = (u8, &'static [(u8, u8)], Pieces, usize);

static WRITTEN: [Written; 4] = [
    (0, &[], ("0:", "", 0, ""), 2),
    (0, &[(1, 0), (2, 0)], ("0:1/0,2/0", "", 0, ""), 9),
    (
        9,
        &[(10, 99), (100, 205)],
        ("9:10/99,100/205", "", 0, ""),
        15,
    ),
    // the longest text
    (
        255,
        &[(255, 255); 64],
        ("255:255/255", ",255/255", 63, ""),
        515,
    ),
];

/// How each fault is printed.
static PRINTED: [(AddressFault, &str); 4] = [
    (AddressFault::BadText { place: 262 }, "BadText 262"),
    (AddressFault::TooDeep, "TooDeep"),
    (AddressFault::UnknownKind { level: 0 }, "UnknownKind 0"),
    (AddressFault::WrongChild { level: 10 }, "WrongChild 10"),
];

/// Returns true if an address is written and printed as its row says.
fn is_written(alloc: Global, row: &Written) -> Result<bool, AllocError> {
    let (kind, digits, pieces, length) = row;
    let addr = address(*kind, digits);
    let wanted = text_of(alloc, pieces)?;
    let printed = format!(in alloc; "{addr}")?;
    Ok(
        write_address(&addr).as_slice() == wanted.as_bytes()
            && printed.as_str() == wanted.as_str()
            && wanted.len() == *length,
    )
}

/// Returns true if a fault is printed as this text.
fn is_printed(alloc: Global, fault: &AddressFault, text: &str) -> Result<bool, AllocError> {
    let printed = format!(in alloc; "{fault}")?;
    Ok(printed.as_str() == text)
}

/// The kind at a level, where there is such a level.
fn kind_there(addr: &Address, level: u8) -> Option<u8> {
    if level <= addr.depth() {
        Some(addr.kind_at(level))
    } else {
        None
    }
}

/// Returns true if an address of depth 2 is read, and the one without digits.
fn is_read(uses: &Uses, addr: &Address) -> bool {
    read_address(uses, b"0:1/0,2/0") == Ok(addr.copy())
        && read_address(uses, b"0:") == Ok(address(0, &[]))
        && addr.depth() == 2
        && kind_there(addr, 2) == Some(0)
}

/// Returns true if an address of depth 2 is written and read, and one whose child is unknown isn't.
fn is_read_back(uses: &Uses, addr: &Address) -> bool {
    let wrong = AddressFault::WrongChild { level: 0 };
    written_and_read(uses, addr) == Ok(addr.copy())
        && written_and_read(uses, &address(0, &[(4, 0)])) == Err(wrong)
}

/// Returns true if the uses of the one kind are four, and an address of depth 2 fits them, and not one with a
/// fifth child.
fn is_one_kind(uses: &Uses, addr: &Address) -> bool {
    uses.kinds() == 1
        && uses.child_kind(0, 3) == Some(0)
        && uses.child_kind(0, 4) == None
        && uses.fits(addr)
        && !uses.fits(&address(0, &[(1, 0), (2, 0), (4, 0)]))
}

/// The depth of an address of 64 digits, what comes of one more, and the depth after it.
fn one_more() -> (u8, Result<(), Full>, u8) {
    let mut full = address(3, &[(7, 0); 64]);
    let depth = full.depth();
    let step = Step {
        child: 0,
        parent: 0,
    };
    let more = full.push_coarse(step);
    (depth, more, full.depth())
}

/// Returns true if a text is read as its row says.
fn is_read_so(
    alloc: Global,
    uses: &Uses,
    pieces: &Pieces,
    wanted: &Result<u8, AddressFault>,
) -> Result<bool, AllocError> {
    let text = text_of(alloc, pieces)?;
    Ok(depth_read(uses, text.as_bytes()) == *wanted)
}

/// Notes the first text that is read otherwise.
fn note_read(alloc: Global, wrong: &mut Wrong, uses: &Uses) {
    for (row, (pieces, wanted)) in READ.iter().enumerate() {
        let is_right = is_read_so(alloc, uses, pieces, wanted);
        wrong.note("read", row, is_right.unwrap_or(false));
    }
}

/// Notes the first address or fault that is written otherwise.
fn note_written(alloc: Global, wrong: &mut Wrong) {
    for (row, written) in WRITTEN.iter().enumerate() {
        wrong.note("written", row, is_written(alloc, written).unwrap_or(false));
    }
    for (row, (fault, text)) in PRINTED.iter().enumerate() {
        let is_right = is_printed(alloc, fault, text);
        wrong.note("printed", row, is_right.unwrap_or(false));
    }
}

/// Notes what comes out otherwise of an address of depth 2, and of one that is full.
fn note_single(wrong: &mut Wrong, uses: &Uses) {
    let addr = address(0, &[(1, 0), (2, 0)]);
    wrong.note("is_read", 0, is_read(uses, &addr));
    wrong.note("is_read_back", 0, is_read_back(uses, &addr));
    wrong.note("is_one_kind", 0, is_one_kind(uses, &addr));
    wrong.note("one_more", 0, one_more() == (64, Err(Full), 64));
}

/// Notes the first text or address that comes out otherwise.
fn note_rows(alloc: Global, wrong: &mut Wrong, uses: &Uses) {
    note_read(alloc, wrong, uses);
    note_written(alloc, wrong);
    note_single(wrong, uses);
}

/// The first text or address that comes out otherwise.
fn first_wrong(alloc: Global) -> Wrong {
    let mut wrong = NONE;
    match one_kind(alloc) {
        Ok(uses) => note_rows(alloc, &mut wrong, &uses),
        Err(_) => wrong.note("one_kind", 0, false),
    }
    wrong
}

#[test]
fn addresses(rt: HostRuntime) {
    first_wrong(rt.alloc()).assert_none(&rt);
}
