//! Layers that refuse one of their calls or some tiles, and layers counted as they are dropped.
use crate::drawings::{Layers, comes_to};
use crate::wrong::Wrong;
use layer_list::census_layer::CensusLayer;
use layer_list::list_layer::ListLayer;
use layer_svg::svg_layer::SvgLayer;
use std::alloc::Global;
use std::rc::Rc;
use tile_shape::no_memory::NoMemory;
use trial_refusing_layer::counted::Counted;
use trial_refusing_layer::particular::Particular;
use trial_refusing_layer::refusing::Refusing;

/// A layer of each format, counted by a token. The one that lists refuses its call of this number.
fn counted(alloc: Global, token: &Rc<u8>, refused: u32) -> Result<Layers, NoMemory> {
    let mut layers: Layers = Vec::new(alloc);
    let census = Counted::new(CensusLayer::new(alloc), token.clone()?);
    layers.push(Box::new(alloc, census)?)?;
    let refusing = Refusing::new(ListLayer::new(alloc), refused);
    layers.push(Box::new(alloc, Counted::new(refusing, token.clone()?))?)?;
    let picture = Counted::new(SvgLayer::new(alloc), token.clone()?);
    layers.push(Box::new(alloc, picture)?)?;
    Ok(layers)
}

/// The number of the call that is refused, and what two tiles come to: the first `put`, the second, the end,
/// or no call is refused.
static CALLS: [(u32, &str); 4] = [
    (1, "11 |11 NoMemory\n"),
    (2, "11 |11 NoMemory\n"),
    (3, "11 |11 NoMemory\n"),
    (4, "0 0 2\nall 2\n0 0 0,0,0,0 0:3/0\n0 1 3,1,0,0 0:1/0\n|"),
];

/// Returns true if a refused call comes to this, and each layer is dropped by then, even one that is not
/// named.
fn is_refused(alloc: Global, refused: u32, wanted: &str) -> Result<bool, NoMemory> {
    let line = "draw rule=chair seed=42 addr=0: at=1,1,0,0 half=2,1 layers=census,list";
    let token = Rc::new(alloc, 0u8)?;
    let layers = counted(alloc, &token, refused)?;
    let count = Rc::strong_count(&token);
    let is_right = comes_to(alloc, line, layers, wanted);
    Ok(count == 4 && is_right && Rc::strong_count(&token) == 1)
}

/// The calls refused by the first and by the second of two layers of a format, 0 for none; and the outcome.
/// The first draws, and the second isn't called.
static PAIRS: [(u32, u32, &str); 2] = [
    (1, 0, "11 |11 NoMemory\n"),
    (0, 1, "0 0 0 0,0,0,0 0:3/0\n0 1 3,1,0,0 0:1/0\n|"),
];

/// Two layers that list, each of which refuses its call of this number.
fn pair(alloc: Global, first: u32, second: u32) -> Result<Layers, NoMemory> {
    let mut layers: Layers = Vec::new(alloc);
    layers.push(Box::new(alloc, Refusing::new(ListLayer::new(alloc), first))?)?;
    layers.push(Box::new(alloc, Refusing::new(ListLayer::new(alloc), second))?)?;
    Ok(layers)
}

/// The vertices that a census takes for a tile, and what two chairs come to. They have eight.
static VERTICES: [(usize, &str); 2] = [(8, "0 0 2\nall 2\n|"), (3, "11 |11 NoMemory\n")];

/// Returns true if a call comes to this with a census that takes only tiles with so many vertices.
fn is_whole(alloc: Global, vertices: usize, wanted: &str) -> Result<bool, NoMemory> {
    let line = "draw rule=chair seed=42 addr=0: at=1,1,0,0 half=2,1 layers=census";
    let token = Rc::new(alloc, 0u8)?;
    let census = Particular::new(CensusLayer::new(alloc), vertices);
    let mut layers: Layers = Vec::new(alloc);
    layers.push(Box::new(alloc, Counted::new(census, token))?)?;
    Ok(comes_to(alloc, line, layers, wanted))
}

/// Notes the first refused call that comes out otherwise.
pub fn note_refused(alloc: Global, wrong: &mut Wrong) {
    for (row, (refused, wanted)) in CALLS.iter().enumerate() {
        let is_right = is_refused(alloc, *refused, wanted).unwrap_or(false);
        wrong.note("refused calls", row, is_right);
    }
    let line = "draw rule=chair seed=42 addr=0: at=1,1,0,0 half=2,1 layers=list";
    for (row, (first, second, wanted)) in PAIRS.iter().enumerate() {
        let is_right = match pair(alloc, *first, *second) {
            Ok(layers) => comes_to(alloc, line, layers, wanted),
            Err(_) => false,
        };
        wrong.note("first of two", row, is_right);
    }
    for (row, (vertices, wanted)) in VERTICES.iter().enumerate() {
        let is_right = is_whole(alloc, *vertices, wanted).unwrap_or(false);
        wrong.note("tiles for a census that looks at all", row, is_right);
    }
}
