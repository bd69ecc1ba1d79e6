//! The tables of calls, walked in turn. The long ones have tests of their own, for their time.
use crate::calls::note_rows;
use crate::drawn_rows::note_drawings;
use crate::files::{self, LONG_FILES};
use crate::foreign::{LISTINGS, LONG_LISTINGS, are_different_tiles_refused};
use crate::growth::note_growth;
use crate::hostile;
use crate::notes::note_notes;
use crate::refusing::note_refused;
use crate::rows::ROWS;
use crate::scripts::{LONG_SCRIPTS, SCRIPTS};
use crate::wholes::note_wholes;
use crate::words::note_words;
use crate::wrong::{NONE, Wrong};
use std::alloc::Global;

/// The first row that comes out otherwise.
fn first_wrong(alloc: Global) -> Wrong {
    let mut wrong = NONE;
    note_rows(alloc, &mut wrong, ROWS);
    note_rows(alloc, &mut wrong, SCRIPTS);
    note_rows(alloc, &mut wrong, LISTINGS);
    files::note_files(alloc, &mut wrong);
    hostile::note_files(alloc, &mut wrong);
    note_notes(alloc, &mut wrong);
    note_words(alloc, &mut wrong);
    wrong
}

#[test]
fn tables(rt: HostRuntime) {
    first_wrong(rt.alloc()).assert_none(&rt);
}

/// The first drawing, or word of the generator, that comes out otherwise.
fn first_drawn_wrong(alloc: Global) -> Wrong {
    let mut wrong = NONE;
    note_drawings(alloc, &mut wrong);
    note_refused(alloc, &mut wrong);
    note_wholes(alloc, &mut wrong);
    note_growth(alloc, &mut wrong);
    wrong
}

#[test]
fn drawings(rt: HostRuntime) {
    first_drawn_wrong(rt.alloc()).assert_none(&rt);
}

/// The first of these rows that comes out otherwise.
fn first_wrong_of(alloc: Global, rows: &'static str) -> Wrong {
    let mut wrong = NONE;
    note_rows(alloc, &mut wrong, rows);
    wrong
}

#[test]
fn long_files(rt: HostRuntime) {
    first_wrong_of(rt.alloc(), LONG_SCRIPTS).assert_none(&rt);
    first_wrong_of(rt.alloc(), LONG_FILES).assert_none(&rt);
}

#[test]
fn long_listings(rt: HostRuntime) {
    first_wrong_of(rt.alloc(), LONG_LISTINGS).assert_none(&rt);
}

#[test]
fn different_tiles(rt: HostRuntime) {
    assert!(rt; are_different_tiles_refused(rt.alloc()));
}
