//! The whole tiles of a window, to be read one at a time.
ghost use Rattle.std.specs.Prelude.{◌≡◌, ◌<◌, All, Some, length, slice_get, IfSome};
ghost use Rattle.std.specs.Option.{is_some, option_map};
ghost use Rattle.half_glue.specs.Found.{given_tile};
ghost use Rattle.half_glue.specs.NumberedTiles.{HasTile, tiles_in};
ghost use Rattle.half_glue.specs.Lifted.{IsNoDeeper, lifted_to};
ghost use Rattle.half_glue.specs.WholeTiles.{HasSecond};

use crate::numbered_tiles::NumberedTiles;
use crate::pairs::Pair;
use cyclo_points::motion::Motion;
use lazy_walk::frame::Frame;
use std::marker::Model;
use tile_place::placed_tile::PlacedTile;
use tile_shape::address::Address;
use window_cover::covered_tiles::CoveredTiles;

/// The whole tiles of the tiles of a window, in the order of their first halves. Contracts see the list of
/// them. The memory for each is the numbers of its tiles.
#[derive(Drop)]
pub struct GluedTiles {
    pub(crate) tiles: CoveredTiles,
    /// The tiles across glue edges that are not tiles of the window.
    pub(crate) crossed: Vec<PlacedTile>,
    /// The whole tiles, in order.
    pub(crate) pairs: Vec<Pair>,
    /// The frame after it has grown.
    pub(crate) frame: Frame,
}

impl Model for GluedTiles {
    ghost use Rattle.std.specs.Prelude.{List, ◌++◌};
    ghost use Rattle.half_glue.specs.declared.whole_tile.WholeTile.{WholeTile};
    ghost use Rattle.half_glue.specs.Lifted.{wholes_of, CanBeWholes};

    ghost Value = { List WholeTile };

    ghost view = { λ g. wholes_of g.frame (g.tiles ++ g.crossed.items) g.pairs.items };

    ghost invariant = { λ g. CanBeWholes g.frame (g.tiles ++ g.crossed.items) g.pairs.items };
}

impl GluedTiles {
    /// Returns the number of whole tiles.
    pub fn len(&self) -> usize
        ensures { result ≡ length self.now }
    {
        self.pairs.len()
    }

    /// Returns true if the whole tile at a place in the order, from 0, has a second half.
    pub fn is_pair(&self, place: usize) -> bool
        requires below { place < length self.now }
        ensures { IfSome (slice_get self.now place) (λ w. result ≡ is_some w.second) }
    {
        self.pairs[place].second.is_some()
    }

    /// Returns the kind of the first half of the whole tile at a place.
    pub fn first_kind(&self, place: usize) -> u8
        requires below { place < length self.now }
        ensures { IfSome (slice_get self.now place) (λ w. result ≡ w.first.kind) }
    {
        let halves = halves_of(&self.tiles, &self.crossed);
        let (_, kind) = halves.place(self.pairs[place].first);
        kind
    }

    /// Returns the motion and the kind of the first half of the whole tile at a place.
    pub fn first_place(&self, place: usize) -> (Motion, u8)
        requires below { place < length self.now }
        ensures motion { IfSome (slice_get self.now place) (λ w. result.0 ≡ w.first.motion) }
        ensures kind { IfSome (slice_get self.now place) (λ w. result.1 ≡ w.first.kind) }
    {
        let halves = halves_of(&self.tiles, &self.crossed);
        halves.place(self.pairs[place].first)
    }

    /// Like [`first_place`](Self::first_place), for the second half, which must exist.
    pub fn second_place(&self, place: usize) -> (Motion, u8)
        requires below { place < length self.now }
        requires is_pair { HasSecond self.now place }
        ensures motion { IfSome (slice_get self.now place)
            (λ w. Some result.0 ≡ option_map (λ x. x.motion) w.second) }
        ensures kind { IfSome (slice_get self.now place)
            (λ w. Some result.1 ≡ option_map (λ x. x.kind) w.second) }
    {
        let number = self.pairs[place].second.unwrap();
        halves_of(&self.tiles, &self.crossed).place(number)
    }

    /// Replaces a kind, a motion and an address by those of the first half of the whole tile at a place in
    /// the order.
    pub fn put_first(&self, place: usize, kind: &mut u8, motion: &mut Motion, addr: &mut Address)
        requires below { place < length self.now }
        ensures { IfSome (slice_get self.now place)
            (λ w. w.first ≡ record { kind = kind.new; motion = motion.new; addr = addr.new }) }
    {
        let number = self.pairs[place].first;
        let halves = halves_of(&self.tiles, &self.crossed);
        put_part(&halves, &self.frame, number, kind, motion, addr);
    }

    /// Like [`put_first`](Self::put_first), for the second half, which must exist.
    pub fn put_second(&self, place: usize, kind: &mut u8, motion: &mut Motion, addr: &mut Address)
        requires below { place < length self.now }
        requires is_pair { HasSecond self.now place }
        ensures { IfSome (slice_get self.now place)
            (λ w. w.second ≡ Some (record { kind = kind.new; motion = motion.new; addr = addr.new })) }
    {
        let number = self.pairs[place].second.unwrap();
        let halves = halves_of(&self.tiles, &self.crossed);
        put_part(&halves, &self.frame, number, kind, motion, addr);
    }
}

/// The tiles of a window and those crossed to, by their numbers.
#[inline]
fn halves_of<'a>(tiles: &'a CoveredTiles, crossed: &'a Vec<PlacedTile>) -> NumberedTiles<'a>
    ensures tiles { result.tiles.now ≡ tiles.now }
    ensures crossed { result.crossed.now ≡ crossed.now.items }
{
    NumberedTiles {
        tiles,
        crossed: crossed.as_slice(),
    }
}

/// Replaces a kind, a motion and an address by those of the tile with this number, lifted to the frame's
/// depth.
fn put_part(
    halves: &NumberedTiles,
    frame: &Frame,
    number: u32,
    kind: &mut u8,
    motion: &mut Motion,
    addr: &mut Address,
)
    requires below { HasTile halves.now number }
    requires no_deeper { All (IsNoDeeper frame.now) (tiles_in halves.now) }
    ensures { record { kind = kind.new; motion = motion.new; addr = addr.new } ≡ lifted_to frame.now
        (given_tile (tiles_in halves.now) number) }
{
    halves.put(number, kind, motion, addr);
    frame.raise(addr);
}
