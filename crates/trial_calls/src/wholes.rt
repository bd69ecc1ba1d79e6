//! Whole tiles drawn: their outlines as the literature has them, and what a list and a census of them say.
use crate::drawings::text_of;
use crate::wrong::Wrong;
use std::alloc::Global;
use tile_shape::no_memory::NoMemory;

/// A tile, and the path of the whole tile in the picture of the window around its vertex 0. X counts half
/// lengths, and Y sines of 36° or 45°, both in thousandths.
static OUTLINES: [(&str, &str); 5] = [
    // a kite: its tip, and three vertices φ from it, 36° apart
    (
        "rule=p2 addr=0:",
        "<path class=\"k0\" d=\"M0 0L3236 0L2618 1618L1000 2618Z\"/>",
    ),
    // a dart: its inner corner, and three vertices 1 from it, at 0°, 108° and 216°
    (
        "rule=p2 addr=2:",
        "<path class=\"k2\" d=\"M0 0L2000 0L-619 1618L-1619 -1000Z\"/>",
    ),
    // a thin rhomb: sides of 1 with 36° between them
    (
        "rule=p3 addr=0:",
        "<path class=\"k0\" d=\"M1618 1000L0 0L2000 0L3618 1000Z\"/>",
    ),
    // a thick rhomb: sides of 1 with 108° between them
    (
        "rule=p3 addr=2:",
        "<path class=\"k2\" d=\"M-619 1618L0 0L2000 0L1381 1618Z\"/>",
    ),
    // a square with a diagonal along the axis
    (
        "rule=ab addr=1:",
        "<path class=\"k1\" d=\"M2828 0L1414 1000L0 0L1414 -1000Z\"/>",
    ),
];

/// Returns whether the picture of the window around vertex 0 of a tile, with whole tiles, has this path.
fn has_path(alloc: Global, tile: &str, path: &str) -> Result<bool, NoMemory> {
    let line = format!(in alloc; "draw {tile} at=0,0,0,0 half=1,1 glue=yes layers=svg")?;
    let text = text_of(alloc, line.as_str(), 1_000_000)?;
    Ok(text.as_str().split('\n').any(|line| line == path))
}

// The digits of an address.
fn depth_of(address: &str) -> usize {
    address.split(',').count()
}

// Returns whether a line of the list is a right whole tile: a rhomb alone, or a square of both halves, the
// lesser first. Each address has 12 digits.
fn is_whole(line: &str) -> bool {
    let words = line.split(' ').count();
    let deep = line.split(' ').filter(|word| depth_of(word) == 12).count();
    if line.starts_with("1 ") {
        words == 9 && deep == 2 && line.split(" + 2 ").count() == 2
    } else {
        line.starts_with("0 ") && words == 4 && deep == 1
    }
}

// How many lines are whole tiles, and how many aren't.
fn counted(text: &str) -> (usize, usize) {
    let wholes = text.split('\n').filter(|line| is_whole(line)).count();
    (wholes, text.split('\n').count().saturating_sub(wholes))
}

/// Returns true if squares and rhombs, far inside a supertile of depth 12, are whole. The last four lines are
/// the census; its second line counts the second halves, and is 0.
fn are_whole(alloc: Global) -> Result<bool, NoMemory> {
    let line =
        "draw rule=ab addr=0:6/0,6/0,6/0,6/0,6/0,6/0,6/0,6/0,6/0,6/0,6/0,6/0 at=0,0,0,0 half=40,40 glue=yes layers=list,census";
    let text = text_of(alloc, line, 1_000_000)?;
    let (wholes, others) = counted(text.as_str());
    let end = format!(in alloc; "\n2 0\nall {wholes}\n")?;
    Ok(others == 5 && wholes > 2000 && text.as_str().ends_with(end.as_str()))
}

/// Notes the first whole tile that comes out otherwise.
pub fn note_wholes(alloc: Global, wrong: &mut Wrong) {
    for (row, (tile, path)) in OUTLINES.iter().enumerate() {
        wrong.note(tile, row, has_path(alloc, tile, path).unwrap_or(false));
    }
    wrong.note("squares and rhombs", 0, are_whole(alloc).unwrap_or(false));
}
