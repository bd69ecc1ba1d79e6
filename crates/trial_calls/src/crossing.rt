//! Across an edge and back, from 100 addresses of each built-in rule, and from every edge of each tile.
ghost use Rattle.std.specs.Prelude.{◌<◌};

use crate::calls::comes_to;
use crate::told::{SOUND, told};
use crate::wrong::{NONE, Wrong};
use builtin_rules::builtin::builtin;
use builtin_rules::name::Name;
use std::alloc::{AllocError, Global};
use tile_shape::address::Address;
use tile_shape::no_memory::NoMemory;
use tile_shape::step::Step;
use tile_shape::uses::Uses;

/// The numbers of a linear congruential generator, the same each time.
#[derive(Drop)]
struct Draws {
    state: u64,
}

impl Draws {
    /// The next number below a bound.
    fn below(&mut self, bound: u64) -> u64
        requires { 0 < bound }
        ensures { result < bound }
    {
        self.state = self
            .state
            .wrapping_mul(6364136223846793005)
            .wrapping_add(1442695040888963407);
        (self.state >> 33) % bound
    }
}

/// A digit whose child has the kind: the first from a drawn place on.
fn digit_above(uses: &Uses, kind: u8, draws: &mut Draws) -> Option<Step> {
    let first = draws.below(256);
    for i in 0..256 {
        let place = (first + i) % 256;
        let step = Step {
            child: (place % 16) as u8,
            parent: (place / 16) as u8,
        };
        if uses.child_kind(step.parent, step.child) == Some(kind) {
            return Some(step);
        }
    }
    None
}

/// An address of a drawn kind, grown at its coarse end to a drawn depth of at most 64.
fn grown(uses: &Uses, draws: &mut Draws) -> Address {
    let mut addr = Address::new(draws.below(u64::from(uses.kinds())) as u8);
    for _ in 0..draws.below(65) {
        let top = addr.kind_at(addr.depth());
        if let Some(step) = digit_above(uses, top, draws) {
            let _ = addr.push_coarse(step);
        }
    }
    addr
}

/// What comes of crossing an edge: a tile from which the way back leads home, the boundary, no such edge, or
/// something else.
#[derive(Clone, Copy, PartialEq, Eq)]
enum Crossed {
    There,
    Outside,
    NoEdge,
    Otherwise,
}

/// Returns true if the way back, by what was printed, leads home.
fn leads_back(
    alloc: Global,
    name: &str,
    text: &str,
    addr: &Address,
    edge: u16,
) -> Result<bool, AllocError> {
    let (across, back) = text.split_once(' ').unwrap_or(("", ""));
    let line = format!(in alloc; "neighbour rule={name} addr={across} edge={back}")?;
    let home = format!(in alloc; "0 {addr} {edge}\n|")?;
    Ok(comes_to(alloc, line.as_str(), "", &SOUND, home.as_str()))
}

/// Crosses an edge of a tile, and then crosses back.
fn cross(alloc: Global, name: &str, addr: &Address, edge: u16) -> Result<Crossed, NoMemory> {
    let line = format!(in alloc; "neighbour rule={name} addr={addr} edge={edge}")?;
    let ended = told(alloc, line.as_str(), "", &SOUND)?;
    let (code, rest) = ended.as_str().split_once(' ').unwrap_or(("", ""));
    let (text, _) = rest.split_once('\n').unwrap_or(("", ""));
    Ok(if code == "8" {
        Crossed::Outside
    } else if code == "12" {
        Crossed::NoEdge
    } else if code == "0" && leads_back(alloc, name, text, addr, edge)? {
        Crossed::There
    } else {
        Crossed::Otherwise
    })
}

/// Goes across each edge of a tile and back. Returns whether there is a tile across one, and whether an edge
/// comes out otherwise.
fn cross_each_edge(alloc: Global, name: &str, addr: &Address) -> (bool, bool) {
    let mut is_inner = false;
    for edge in 0..256 {
        match cross(alloc, name, addr, edge).unwrap_or(Crossed::Otherwise) {
            Crossed::There => is_inner = true,
            Crossed::Outside => (),
            Crossed::NoEdge => return (is_inner, false),
            Crossed::Otherwise => return (is_inner, true),
        }
    }
    (is_inner, false)
}

/// Returns true if each edge of 100 drawn tiles comes out right, over 90 of them have a tile across an edge,
/// and one is deeper than 60.
fn are_right(alloc: Global, uses: &Uses, name: &str) -> bool {
    let mut draws = Draws { state: 42 };
    let mut most: u8 = 0;
    let mut inner: u64 = 0;
    for _ in 0..100 {
        let addr = grown(uses, &mut draws);
        most = most.max(addr.depth());
        let (is_inner, is_wrong) = cross_each_edge(alloc, name, &addr);
        if is_wrong {
            return false;
        }
        inner = inner.saturating_add(u64::from(is_inner));
    }
    most > 60 && inner > 90
}

/// The built-in rules.
static NAMES: [(Name, &str); 5] = [
    (Name::Chair, "chair"),
    (Name::P2, "p2"),
    (Name::P3, "p3"),
    (Name::AmmannBeenker, "ab"),
    (Name::HalfHex, "halfhex"),
];

/// The first rule whose tiles come out otherwise.
fn first_wrong(alloc: Global) -> Wrong {
    let mut wrong = NONE;
    for (name, text) in &NAMES {
        let is_right = match builtin(alloc, *name) {
            Ok(checked) => are_right(alloc, checked.uses(), text),
            Err(_) => false,
        };
        wrong.note(text, 0, is_right);
    }
    wrong
}

#[test]
fn across_and_back(rt: HostRuntime) {
    first_wrong(rt.alloc()).assert_none(&rt);
}
