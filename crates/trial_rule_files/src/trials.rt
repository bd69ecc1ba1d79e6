//! What the engine finds by a rule, compared with the brute-force program of the trials.
ghost use Rattle.std.specs.Prelude.{◌≡◌, ◌<◌};

use crate::crossed::crossed;
use crate::paired::paired;
use edge_tables::steps::Steps;
use rule_model::checked::Checked;
use std::alloc::Global;
use std::marker::Brand;
use std::sync::ledger::{Blank, Ledger};
use tile_place::machine::Machine;
use tile_shape::no_memory::NoMemory;
use trial_plain_tiles::counts::Counts;
use trial_plain_tiles::located::located;
use trial_plain_tiles::two_ways::alike_windows;
use trial_plain_tiles::vertex_tiles::stars;
use trial_plain_tiles::walks::walks;
use trial_plain_tiles::window_tiles::windows;

/// The most tiles of a supertile that are listed: all of depth 4 of a rule with nine children.
const MOST_TILES: u64 = 6561;

/// The most tiles of a supertile whose pairs are all listed: all of depth 3 of such a rule.
const MOST_PAIRED: u64 = 729;

/// The most tiles of a frame that are listed for a window.
const MOST_IN_FRAME: u64 = 1100;

/// The greatest depth of the supertiles whose vertices are turned around.
const DEEPEST_TURNED: u8 = 2;

/// The most tiles of a frame that are listed for a vertex.
const MOST_TURNED: u64 = 100;

/// The number of random walks.
const WALKS: u32 = 1000;

/// The number of random windows.
const WINDOWS: u32 = 100;

/// The number of random windows that are covered in two ways.
const TWO_WAYS: u32 = 40;

/// The greatest half-width of these, in units: two thirds of them are covered from the top down.
const MOST_UNITS: u64 = 70;

/// Counts the tiles located, the edges crossed, the walks and the stars.
fn counted<L: Ledger>(
    alloc: Global,
    machine: &Machine,
    blank: Blank,
) -> Result<[Counts; 4], NoMemory>
    requires name { blank.name ≡ L.name }
    requires parts { blank.parts ≡ L.parts }
    requires some { 0 < blank.parts }
{
    let mut steps = Steps::<L>::new(blank);
    let points = located(alloc, machine, MOST_TILES)?;
    let edges = crossed(alloc, machine, MOST_TILES, &mut steps)?;
    let walks = walks(alloc, machine, WALKS, &mut steps)?;
    let turned = stars(alloc, machine, DEEPEST_TURNED, MOST_TURNED, &mut steps)?;
    Ok([points, edges, walks, turned])
}

/// Adds how many trials succeeded, or how many failed.
fn add(text: &mut String, counts: Counts, wanted: &str, otherwise: &str) -> Result<(), NoMemory> {
    let Counts { right, differ } = counts;
    if differ == 0 {
        write!(text, ", {right} {wanted}")?;
    } else {
        write!(text, ", {differ} {otherwise}")?;
    }
    Ok(())
}

/// The words for the trials, in their order: if all succeeded, and if some failed.
const SAID: [(&str, &str); 7] = [
    (
        "points located as listed",
        "points located OTHERWISE than listed",
    ),
    (
        "edges crossed as listed",
        "edges crossed OTHERWISE than listed",
    ),
    ("pairs meet as listed", "pairs meet OTHERWISE than listed"),
    ("walks lead back", "walks lead ELSEWHERE than back"),
    (
        "windows covered as listed",
        "windows covered OTHERWISE than listed",
    ),
    (
        "windows answered alike in two ways",
        "windows answered OTHERWISE from the top down",
    ),
    (
        "stars turned as listed",
        "stars turned OTHERWISE than listed",
    ),
];

/// Returns the outcome of the trials of a machine.
fn tried(alloc: Global, machine: &Machine) -> Result<String, NoMemory> {
    let mut text = String::new(alloc);
    let [points, edges, walks, turned] = counted::<Brand>(alloc, machine, Blank::new(1))?;
    let pairs = paired(alloc, machine, MOST_PAIRED)?;
    let (windows, _) = windows(alloc, machine, WINDOWS, MOST_IN_FRAME)?;
    let alike = alike_windows(alloc, machine, TWO_WAYS, MOST_UNITS);
    let all = [points, edges, pairs, walks, windows, alike, turned];
    for (counts, (wanted, otherwise)) in all.iter().zip(SAID.iter()) {
        add(&mut text, *counts, wanted, otherwise)?;
    }
    Ok(text)
}

/// Returns the outcome of the trials of an accepted rule, each after a comma.
pub fn trials(alloc: Global, rule: Checked) -> Result<String, NoMemory> {
    let machine = Machine::new(alloc, rule)?;
    tried(alloc, &machine)
}
