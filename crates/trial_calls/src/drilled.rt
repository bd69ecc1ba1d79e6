//! `drill`: its windows against those that `draw` counts, each made here of the generator's words.
use crate::drawings::text_of;
use crate::wrong::{NONE, Wrong};
use rand_core::utils::NextWord;
use rand_pcg::Pcg32;
use std::alloc::{AllocError, Global};
use tile_shape::no_memory::NoMemory;

/// The room for what is printed.
const ROOM: usize = 16_000_000;

/// The built-in rules.
const RULES: [&str; 5] = ["chair", "p2", "p3", "ab", "halfhex"];

// What the next word is as a coefficient of a centre.
fn coefficient(words: &mut Pcg32) -> i64 {
    i64::from(words.next_word() % 64) - 32
}

// The next window as words for `draw`.
fn window(alloc: Global, words: &mut Pcg32) -> Result<String, AllocError> {
    let a0 = coefficient(words);
    let a1 = coefficient(words);
    let a2 = coefficient(words);
    let a3 = coefficient(words);
    let w = words.next_word() % 64 + 1;
    let h = words.next_word() % 64 + 1;
    format!(in alloc; "at={a0},{a1},{a2},{a3} half={w},{h}")
}

// Returns the number after the last blank of a text, without its last newline.
fn last_number(text: &str) -> u64 {
    text.trim_end()
        .rsplit(' ')
        .next()
        .and_then(|number| number.parse().ok())
        .unwrap_or(0)
}

// The digits of the address in the first line of a list.
fn depth(text: &str) -> u64 {
    let line = text.split('\n').next().unwrap_or("");
    let address = line.rsplit(' ').next().unwrap_or("");
    address.matches('/').count() as u64
}

// Returns the five lines of the windows of a seed, by drawing each of them.
fn summary(alloc: Global, rule: &str, seed: u64, count: u64) -> Result<String, NoMemory> {
    let mut words = Pcg32::new(seed, 54);
    let mut tiles = 0u64;
    let mut largest = 0;
    let mut deepest = 0;
    let mut refused = 0u64;
    for _ in 0..count {
        let window = window(alloc, &mut words)?;
        let line = format!(in alloc;
            "draw rule={rule} seed={seed} addr=0: {window} layers=list,census"
        )?;
        let text = text_of(alloc, line.as_str(), ROOM)?;
        if text.is_empty() {
            refused = refused.saturating_add(1);
        } else {
            let number = last_number(text.as_str());
            tiles = tiles.saturating_add(number);
            largest = number.max(largest);
            deepest = depth(text.as_str()).max(deepest);
        }
    }
    Ok(format!(in alloc;
        "windows {count}\ntiles {tiles}\nlargest {largest}\ndepth {deepest}\nrefused {refused}\n"
    )?)
}

/// Returns true if the summary of ten windows is that of drawing each of them.
fn is_summed(alloc: Global, rule: &str) -> Result<bool, NoMemory> {
    let line = format!(in alloc; "drill rule={rule} seed=42 n=10")?;
    let wanted = summary(alloc, rule, 42, 10)?;
    Ok(text_of(alloc, line.as_str(), ROOM)?.as_str() == wanted.as_str())
}

/// Returns true if one window is summed up right. It was worked out by hand.
fn is_one(alloc: Global) -> Result<bool, NoMemory> {
    let draw = "draw rule=chair seed=42 addr=0: at=23,-23,16,-13 half=12,47 layers=census";
    let number = last_number(text_of(alloc, draw, ROOM)?.as_str());
    let text = text_of(alloc, "drill rule=chair seed=42 n=1", ROOM)?;
    let start = format!(in alloc; "windows 1\ntiles {number}\nlargest {number}\ndepth ")?;
    Ok(
        number > 0
            && text.as_str().starts_with(start.as_str())
            && text.as_str().ends_with("\nrefused 0\n"),
    )
}

/// Returns true if two hundred windows are summed up alike, twice.
fn is_alike(alloc: Global, rule: &str) -> Result<bool, NoMemory> {
    let line = format!(in alloc; "drill rule={rule} seed=42 n=200")?;
    let text = text_of(alloc, line.as_str(), ROOM)?;
    let again = text_of(alloc, line.as_str(), ROOM)?;
    Ok(text.as_str().starts_with("windows 200\n") && again.as_str() == text.as_str())
}

/// The first rule whose windows are summed up otherwise.
fn first_wrong(alloc: Global) -> Wrong {
    let mut wrong = NONE;
    for rule in &RULES {
        wrong.note(rule, 10, is_summed(alloc, rule).unwrap_or(false));
    }
    wrong.note("one window", 1, is_one(alloc).unwrap_or(false));
    wrong
}

#[test]
fn few_windows(rt: HostRuntime) {
    first_wrong(rt.alloc()).assert_none(&rt);
}

/// The first rule of which two hundred windows are summed up otherwise the second time.
fn first_unlike(alloc: Global) -> Wrong {
    let mut wrong = NONE;
    for rule in &RULES {
        wrong.note(rule, 200, is_alike(alloc, rule).unwrap_or(false));
    }
    wrong
}

#[test]
fn many_windows_twice(rt: HostRuntime) {
    first_unlike(rt.alloc()).assert_none(&rt);
}
