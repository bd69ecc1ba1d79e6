//! The rows that were worked out by hand, walked in turn.
use crate::contain::note_contained;
use crate::covered::note_covered;
use crate::glued::note_glued;
use crate::held_points::note_located;
use crate::pairs::note_pairs;
use crate::stars::note_stars;
use crate::steps::is_one_step;
use crate::whole_tiles::is_kite;
use crate::wrong::{NONE, Wrong};
use builtin_rules::name::Name;
use std::alloc::Global;
use tile_place::machine::Machine;
use trial_plain_tiles::built_in::machine_of;

/// Notes the first row of the chair that comes out otherwise.
fn note_chair(alloc: Global, wrong: &mut Wrong, chair: &Machine) {
    note_contained(alloc, wrong, chair);
    note_located(alloc, wrong, chair);
    note_pairs(alloc, wrong, chair);
    wrong.note("one step", 0, is_one_step(alloc, chair).unwrap_or(false));
}

/// The first row that comes out otherwise.
fn first_wrong(alloc: Global) -> Wrong {
    let mut wrong = NONE;
    match machine_of(alloc, Name::Chair) {
        Ok(chair) => note_chair(alloc, &mut wrong, &chair),
        Err(_) => wrong.note("chair", 0, false),
    }
    note_covered(alloc, &mut wrong);
    note_glued(alloc, &mut wrong);
    note_stars(alloc, &mut wrong);
    wrong.note("kite", 0, is_kite(alloc).unwrap_or(false));
    wrong
}

#[test]
fn worked_out(rt: HostRuntime) {
    first_wrong(rt.alloc()).assert_none(&rt);
}
