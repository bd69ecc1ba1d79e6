//! Finds the whole tiles whose tiles are all in a window.
ghost use Rattle.std.specs.Prelude.{◌≡◌, ◌⊎◌, ℕ, ◌<◌, false, get_or, length, IfOk, IfSome, IsTrue};
ghost use Rattle.theory_walks.specs.Frames.{FrameValue, IsFrameOf};
ghost use Rattle.rule_model.specs.Tiling.{tiling_of};
ghost use Rattle.half_glue.specs.Given.{AreGiven};
ghost use Rattle.half_glue.specs.Inner.{IsOfPair, IsInnerPair, AreInner, AreRising};
ghost use Rattle.half_glue.specs.Pairs.{ArePresent};
ghost use Rattle.half_glue.specs.Searches.{IsWindowSearch};

use crate::glue_laws::glue_laws;
use crate::guesses::Guesses;
use crate::pairs::{Pair, is_less};
use crate::window_search::WindowSearch;
use std::alloc::Global;
use tile_shape::no_memory::NoMemory;

/// Finds the whole tiles whose tiles are all in a window, by the numbers of their first tiles. Each is found
/// by its first tile alone. Marks the tiles of those found as taken.
pub(crate) fn inner_pairs(
    alloc: Global,
    search: &WindowSearch,
    guesses: &mut Guesses,
    taken: &mut [bool],
) -> Result<Vec<Pair>, NoMemory>
    requires sought { IsWindowSearch search.now }
    requires as_many { length taken.old ≡ length search.now.tiles.now }
    requires none_taken { (k : ℕ) → ¬ IsTrue (get_or taken.old k false) }
    ensures as_many { length taken.new ≡ length search.now.tiles.now }
    ensures rising { IfOk result (λ pairs. AreRising (length search.now.tiles.now) pairs.items) }
    ensures inner { IfOk result (λ pairs. (f : FrameValue) → IsFrameOf (tiling_of search.now.machine.now) f
        → AreGiven (tiling_of search.now.machine.now) f search.now.tiles.now
        → AreInner (tiling_of search.now.machine.now) f search.now.tiles.now pairs.items taken.new) }
{
    let mut pairs = Vec::new(alloc);
    for number in 0..search.tiles.len() {
        if let Some(pair) = inner_pair(search, guesses, number) {
            mark(taken, &pair);
            pairs.push(pair)?;
        }
    }
    Ok(pairs)
}

/// Returns the whole tile whose first tile has this number, if all its tiles are found in the window.
fn inner_pair(search: &WindowSearch, guesses: &mut Guesses, number: usize) -> Option<Pair>
    requires sought { IsWindowSearch search.now }
    requires below { number < length search.now.tiles.now }
    ensures first { IfSome result (λ pair. pair.first ≡ number) }
    ensures present { IfSome result (ArePresent (length search.now.tiles.now)) }
    ensures inner { IfSome result (λ pair. (f : FrameValue) → IsFrameOf (tiling_of search.now.machine.now) f
        → AreGiven (tiling_of search.now.machine.now) f search.now.tiles.now
        → IsInnerPair (tiling_of search.now.machine.now) f search.now.tiles.now pair) }
{
    glue_laws(search.machine);
    let kind = search.tiles.kind(number);
    let own = number as u32;
    let side = match &search.sides[usize::from(kind)] {
        Some(side) => side,
        None => {
            return Some(Pair {
                first: own,
                second: None,
            });
        }
    };
    let other = side.other?;
    if !is_less(kind, other.kind) {
        return None;
    }
    let motion = search.tiles.motion(number);
    let second = search.half_among(guesses, side, &motion, kind)?;
    Some(Pair {
        first: own,
        second: Some(second),
    })
}

/// Marks the tiles of a pair as taken.
fn mark(taken: &mut [bool], pair: &Pair)
    requires present { ArePresent (length taken.old) pair.now }
    ensures as_many { length taken.new ≡ length taken.old }
    ensures marked { (k : ℕ) → IsTrue (get_or taken.new k false) → IsTrue (get_or taken.old k false)
        ⊎ IsOfPair k pair.now }
{
    taken[pair.first as usize] = true;
    if let Some(second) = pair.second {
        taken[second as usize] = true;
    }
}
