//! The state of a search: the tiles found and the open edges.
ghost use Rattle.std.specs.Prelude.{◌≡◌, ◌<◌, ◌≤◌, ◌^◌, Some, false, length, map, nat_abs, nat_lt, slice_get, IsTrue};
ghost use Rattle.std.specs.List.{AllByRecursion};
ghost use Rattle.cyclo_points.specs.Point.{IsWithin};
ghost use Rattle.tile_shape.specs.Views.{step_of};
ghost use Rattle.window_cover.specs.Admitted.{found_as};
ghost use Rattle.window_cover.specs.Covered.{tile_of};
ghost use Rattle.window_cover.specs.Found.{first_of};
ghost use Rattle.window_cover.specs.Keys.{HasKey};
ghost use Rattle.theory_windows.specs.Limits.{most_tiles};

use crate::border::Border;
use crate::found_tile::FoundTile;
use crate::open_edge::OpenEdge;
use arrayvec::ArrayVec;
use cyclo_points::motion::Motion;
use cyclo_points::point::Point;
use plane_geom::window::Window;
use std::alloc::Global;
use std::marker::Model;
use tile_place::placed_tile::PlacedTile;
use tile_shape::address::Address;
use tile_shape::step::Step;

/// The greatest coefficient of a shift that counts as near the origin.
const NEAR: u32 = 1 << 20;

/// The tiles found in a window, and the open edges. An open edge is an edge of one of these tiles that meets
/// the window and has no tile found across it.
#[derive(Drop)]
pub struct Cover {
    pub(crate) window: Window,
    /// The tiles found, in the order in which they were found.
    pub(crate) found: Vec<FoundTile>,
    /// The digits of all these tiles, one tile's after another's.
    pub(crate) digits: Vec<Step>,
    pub(crate) border: Border,
    /// Room for the corners of the tile that is being added.
    pub(crate) corners: ArrayVec<Point, 12>,
}

impl Model for Cover {
    ghost use Rattle.std.specs.Prelude.{map};
    ghost use Rattle.window_cover.specs.Found.{CoverValue};
    ghost use Rattle.window_cover.specs.Kept.{found_in, IsKept};
    ghost use Rattle.window_cover.specs.Packed.{unpacked};

    ghost Value = { CoverValue };

    ghost view = { λ c. record
        { window = c.window; found = found_in c.digits.items c.found.items; border = map unpacked c.border } };

    ghost invariant = { λ c. IsKept c.digits.items c.found.items c.border };
}

impl Cover {
    /// Returns the number of tiles found, at most 200,000.
    pub fn tiles(&self) -> u32
        ensures count { result ≡ length self.now.found }
        ensures at_most { result ≤ most_tiles }
    {
        self.found.len() as u32
    }

    /// Returns the number of open edges.
    pub fn open_edges(&self) -> u32
        ensures { result ≡ length self.now.border }
    {
        self.border.count() as u32
    }

    /// Returns the first open edge, by number of the tile and then of the edge. None exactly if no edge is
    /// open.
    pub fn first_open(&self) -> Option<OpenEdge>
        ensures { result ≡ first_of self.now.border }
    {
        self.border.first()
    }

    /// The law of the tiles found: each has a key and at most 64 digits.
    pub(crate) fn tiles_law(&self)
        ensures keyed { AllByRecursion HasKey self.now.found }
        ensures short { AllByRecursion (λ x. length x.digits ≤ 64) self.now.found }
    {
        let _ = &self.window;
    }

    /// Returns this state with no edge open.
    pub(crate) fn closed(self, alloc: Global) -> Cover
        ensures { result.found ≡ self.found }
    {
        let _ = &self.window;
        let mut cover = self;
        cover.border = Border::new(alloc);
        cover
    }

    /// Replaces `tile` by the tile found with this number, with the digits that it had then.
    pub(crate) fn put_tile(&self, number: usize, tile: &mut PlacedTile)
        requires found { number < length self.now.found }
        ensures as_found { slice_get self.now.found number ≡ Some (found_as tile.new) }
        ensures its_kind { tile.new.addr.kind ≡ tile.new.kind }
    {
        self.put_found(number, &mut tile.kind, &mut tile.motion, &mut tile.addr);
    }

    /// Returns the window.
    pub(crate) fn window(&self) -> Window
        ensures { result ≡ self.now.window }
    {
        self.window
    }

    /// Returns the motion and the kind of the tile found with this number.
    #[inline]
    pub(crate) fn place(&self, number: usize) -> (Motion, u8)
        requires found { number < length self.now.found }
        ensures motion { result.0 ≡ (tile_of self.now.found number).motion }
        ensures kind { result.1 ≡ (tile_of self.now.found number).kind }
    {
        let found = &self.found[number];
        (found.motion, found.kind)
    }

    /// Returns the digits of the tile found with this number.
    #[inline]
    pub(crate) fn digits_of(&self, number: usize) -> &[Step]
        requires found { number < length self.now.found }
        ensures { map step_of result.now ≡ (tile_of self.now.found number).digits }
    {
        let found = &self.found[number];
        &self.digits[found.first..found.first + found.depth as usize]
    }

    /// Returns true only if the tile found with this number is near the origin and has at most `depth`
    /// digits.
    pub(crate) fn is_near(&self, number: usize, depth: u8) -> bool
        requires found { number < length self.now.found }
        ensures near { IsTrue result → IsWithin (2 ^ 20) (tile_of self.now.found number).motion.shift }
        ensures short { IsTrue result → length (tile_of self.now.found number).digits ≤ depth }
    {
        let found = &self.found[number];
        found.depth <= depth && !is_far(&found.motion.shift, NEAR)
    }

    /// Like [`put`](Self::put), for a kind, a motion and an address.
    pub(crate) fn put_found(
        &self,
        number: usize,
        kind: &mut u8,
        motion: &mut Motion,
        addr: &mut Address,
    )
        requires found { number < length self.now.found }
        ensures as_found { slice_get self.now.found number
            ≡ Some (found_as (record { kind = kind.new; motion = motion.new; addr = addr.new })) }
        ensures its_kind { addr.new.kind ≡ kind.new }
    {
        let found = &self.found[number];
        *kind = found.kind;
        *motion = found.motion;
        put_address(
            addr,
            found.kind,
            &self.digits[found.first..found.first + found.depth as usize],
        );
    }
}

/// Makes a tile that fills a place until a real one is put there.
pub(crate) fn no_tile() -> PlacedTile {
    PlacedTile {
        kind: 0,
        motion: Motion::default(),
        addr: Address::new(0),
    }
}

/// Replaces the kind and the digits of an address.
fn put_address(addr: &mut Address, kind: u8, digits: &[Step])
    requires at_most_64 { length digits.now ≤ 64 }
    ensures kind { addr.new.kind ≡ kind }
    ensures digits { addr.new.digits.items ≡ digits.now }
{
    addr.kind = kind;
    addr.digits.clear();
    let _ = addr.digits.try_extend_from_slice(digits);
}

/// Returns true if a coefficient of a point may be above `most` in absolute value. False means that none is.
pub(crate) fn is_far(p: &Point, most: u32) -> bool
    ensures { result ≡ false → IsWithin most p.now }
{
    is_beyond(p.c[0], most)
        | is_beyond(p.c[1], most)
        | is_beyond(p.c[2], most)
        | is_beyond(p.c[3], most)
}

/// Returns true if a coefficient is above `most` in absolute value.
fn is_beyond(coefficient: i64, most: u32) -> bool
    ensures { result ≡ nat_lt most (nat_abs coefficient) }
{
    coefficient.unsigned_abs() > u64::from(most)
}
