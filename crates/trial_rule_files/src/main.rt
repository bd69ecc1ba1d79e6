//! The program `trial_rule_files`: tries each rule file of the library, and each file of the tutorial that a
//! clause refuses.
//!
//! It reads and checks a file. It prints an accepted rule, reads the text back and checks it again, and
//! compares the two texts.
//!
//! It compares the engine with the brute-force program of the trials. The comparison covers the tiles located
//! in supertiles, the tile across each edge, the edges by which any two tiles meet, walks, windows, and the
//! tiles around vertices.
//!
//! The files are in the folder that it runs in. The gate compares what it prints with the expected text. It
//! claims nothing of its own.
#![tactic(auto)]

mod crossed;
mod crowded;
mod outcome;
mod paired;
mod trials;

use crate::outcome::{crowded_outcome, is_printed, outcome};
use builtin_rules::name::Name;
use std::{fs, io};
use tile_shape::no_memory::NoMemory;

/// The rule files of the library, followed by the refused ones.
const FILES: [&str; 55] = [
    "ammann_beenker.toml",
    "ammann_beenker_mirrored.toml",
    "chair.toml",
    "chair_squares.toml",
    "domino_table.toml",
    "equithirds.toml",
    "fibonacci_rhombs.toml",
    "half_chair.toml",
    "half_hex.toml",
    "half_hex_halves.toml",
    "half_square_four.toml",
    "half_square_turned.toml",
    "half_square_two.toml",
    "half_triangle_three.toml",
    "l_tetromino_four.toml",
    "p_pentomino_four.toml",
    "paper_rectangle_two.toml",
    "parallelogram_two.toml",
    "penrose_p1.toml",
    "penrose_p2.toml",
    "penrose_p3.toml",
    "period_doubling_squares.toml",
    "quadrant_chair.toml",
    "rectangle_four.toml",
    "rectangle_three.toml",
    "rhomb_eight_four.toml",
    "rhomb_six_four.toml",
    "rhomb_ten_four.toml",
    "right_triangle_four.toml",
    "robinson_kite_halves.toml",
    "robinson_rhomb_halves.toml",
    "robinson_rhomb_turned.toml",
    "rudin_shapiro_squares.toml",
    "silver_mean_squares.toml",
    "sphinx.toml",
    "sphinx_nine.toml",
    "square_four.toml",
    "square_nine.toml",
    "squiral_squares.toml",
    "table_squares.toml",
    "thue_morse_squares.toml",
    "triangle_four.toml",
    "triangle_nine.toml",
    "tromino_nine.toml",
    "tuebingen_triangles.toml",
    "01_too_many.toml",
    "02_not_star.toml",
    "03_wrong_factor.toml",
    "04_bad_mate.toml",
    "05_bad_length.toml",
    "06_bad_subdivision.toml",
    "07_loose_child_edge.toml",
    "08_wrong_boundary.toml",
    "09_unused.toml",
    "10_wrong_glue.toml",
];

/// The rule files of the built-in rules.
const BUILT_IN: [(&str, Name); 5] = [
    ("chair.toml", Name::Chair),
    ("penrose_p2.toml", Name::P2),
    ("penrose_p3.toml", Name::P3),
    ("ammann_beenker.toml", Name::AmmannBeenker),
    ("half_hex.toml", Name::HalfHex),
];

/// Rule files that put very many tiles around a vertex, as `tools/fan_rule.py` makes them.
const CROWDED: [&str; 2] = ["64_round_a_vertex.toml", "65_round_a_vertex.toml"];

/// Prints a line for each file.
fn describe_files(rt: &HostRuntime) -> io::Result<()> {
    for name in FILES {
        let bytes = fs::read(rt, name)?;
        match outcome(rt.alloc(), bytes.as_slice()) {
            Ok(line) => println!(rt; "{name} {line}")?,
            Err(NoMemory) => return Err(io::ErrorKind::OutOfMemory.into()),
        }
    }
    Ok(())
}

/// Prints a line for each built-in rule.
fn compare_files(rt: &HostRuntime) -> io::Result<()> {
    for (file, name) in BUILT_IN {
        let bytes = fs::read(rt, file)?;
        match is_printed(rt.alloc(), name, bytes.as_slice()) {
            Ok(true) => println!(rt; "{file} is what the built-in rule is printed as")?,
            Ok(false) => println!(rt; "{file} is ANOTHER text than the built-in rule's")?,
            Err(NoMemory) => return Err(io::ErrorKind::OutOfMemory.into()),
        }
    }
    Ok(())
}

/// Prints a line for each crowded rule.
fn turn_crowded(rt: &HostRuntime) -> io::Result<()> {
    for name in CROWDED {
        let bytes = fs::read(rt, name)?;
        match crowded_outcome(rt.alloc(), bytes.as_slice()) {
            Ok(line) => println!(rt; "{name} {line}")?,
            Err(NoMemory) => return Err(io::ErrorKind::OutOfMemory.into()),
        }
    }
    Ok(())
}

fn main(rt: HostRuntime) -> io::Result<()> {
    describe_files(&rt)?;
    compare_files(&rt)?;
    turn_crowded(&rt)
}
