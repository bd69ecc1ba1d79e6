//! A base tile and the supertile around it.
ghost use Rattle.std.specs.Prelude.{◌≡◌, ◌↔◌, ◌+◌, ◌<◌, ◌≤◌, length, map, max, Some, IsOk, IfOk, OnOk, OnErr};
ghost use Rattle.theory_addresses.specs.Address.{depth, kind_at, Fits};
ghost use Rattle.theory_frames.specs.Frame.{lifted_in};
ghost use Rattle.rule_model.specs.Tiling.{Tiling, tiling_of, children};
ghost use Rattle.tile_shape.specs.Views.{address_of, step_of};
ghost use Rattle.theory_walks.specs.Frames.{whole, at_depth, IsFrameOf, GrowsTo};

use arrayvec::ArrayVec;
use seeded_growth::growth::Growth;
use seeded_growth::laws::{grown_fits_law, next_digit_law};
use std::marker::Model;
use tile_place::machine::Machine;
use tile_shape::address::{Address, Full};
use tile_shape::no_memory::NoMemory;
use tile_shape::step::Step;

/// A base address with the digits grown so far. Contracts see the base, the seed and all digits.
#[derive(Drop)]
pub struct Frame {
    base: Address,
    digits: ArrayVec<Step, 64>,
    growth: Growth,
}

impl Model for Frame {
    ghost use Rattle.std.specs.Prelude.{◌≡◌, ◌+◌, length, map};
    ghost use Rattle.tile_shape.specs.Views.{address_of, step_of};
    ghost use Rattle.theory_walks.specs.Frames.{FrameValue};

    ghost Value = { FrameValue };

    ghost view = { λ f. record
        { base = address_of f.base; start = f.growth.start; digits = map step_of f.digits.items } };

    ghost invariant = { λ f. length f.base.digits.items + f.growth.taken ≡ length f.digits.items };
}

impl Frame {
    /// Makes the frame of a base that has grown no digit. `start` is the seed.
    pub fn new(base: Address, start: u64) -> Frame
        ensures base { result.base ≡ address_of base }
        ensures start { result.start ≡ start }
        ensures digits { result.digits ≡ (address_of base).digits }
        ensures at_most_64 { length result.digits ≤ 64 }
        ensures is_frame { (t : Tiling) → Fits (children t) (address_of base) → IsFrameOf t result }
    {
        let mut digits = ArrayVec::new();
        let _ = digits.try_extend_from_slice(base.digits.as_slice());
        Frame {
            base,
            digits,
            growth: Growth::new(start),
        }
    }

    /// Makes an equal frame. It fails only if memory runs out.
    pub fn copy(&self) -> Result<Frame, NoMemory>
        ensures { IfOk result (λ copy. copy ≡ self.now) }
    {
        let growth = self.growth.copy()?;
        let mut digits = ArrayVec::new();
        let _ = digits.try_extend_from_slice(self.digits.as_slice());
        Ok(Frame {
            base: self.base.copy(),
            digits,
            growth,
        })
    }

    /// Returns the base's own address.
    pub fn base(&self) -> &Address
        ensures { address_of result.now ≡ self.now.base }
    {
        &self.base
    }

    /// Returns how many digits there are, from 0 to 64.
    pub fn depth(&self) -> u8
        ensures digits { result ≡ length self.now.digits }
        ensures at_most_64 { result ≤ 64 }
    {
        self.digits.len() as u8
    }

    /// Returns the base's digits, followed by the grown ones, from fine to coarse.
    pub fn digits(&self) -> &ArrayVec<Step, 64>
        ensures { map step_of result.now.items ≡ self.now.digits }
    {
        &self.digits
    }

    /// Returns the kind of the base's ancestor at a level.
    pub fn kind_at(&self, level: u8) -> u8
        requires deep { level ≤ length self.now.digits }
        ensures { Some result ≡ kind_at (whole self.now) level }
    {
        if level == 0 {
            self.base.kind
        } else {
            self.digits[level as usize - 1].parent
        }
    }

    /// Grows by one digit.
    ///
    /// # Errors
    ///
    /// `Full` if and only if the depth is 64; then nothing changes.
    pub fn grow(&mut self, machine: &Machine) -> Result<(), Full>
        requires frame { IsFrameOf (tiling_of machine.now) self.old }
        ensures room { IsOk result ↔ (length self.old.digits < 64) }
        ensures one_more { OnOk result (self.new ≡ at_depth (tiling_of machine.now)
            (length self.old.digits + 1) self.old) }
        ensures full { OnErr result (self.new ≡ self.old) }
        ensures frame { GrowsTo (tiling_of machine.now) self.old self.new }
    {
        grown_fits_law();
        next_digit_law();
        let depth = self.depth();
        if depth == 64 {
            return Err(Full);
        }
        let uses = machine.checked().uses();
        let _usable = uses.kinds();
        let top = self.kind_at(depth);
        let digit = self.growth.next_digit(uses, top);
        self.digits.push(digit);
        Ok(())
    }

    /// Grows to a depth, unless the frame is as deep already.
    pub fn grow_to(&mut self, machine: &Machine, depth: u8)
        requires frame { IsFrameOf (tiling_of machine.now) self.old }
        requires at_most_64 { depth ≤ 64 }
        ensures frame { GrowsTo (tiling_of machine.now) self.old self.new }
        ensures depth { length self.new.digits ≡ max (length self.old.digits) depth }
    {
        while self.depth() < depth {
            let _ = self.grow(machine);
        }
    }

    /// Returns a tile of the frame as one of the whole frame: the frame's digits, from the tile's depth up,
    /// are appended to its own.
    pub fn lift(&self, tile: &Address) -> Address
        requires no_deeper { depth (address_of tile.now) ≤ length self.now.digits }
        ensures { address_of result ≡ lifted_in (whole self.now) (address_of tile.now) }
    {
        let mut lifted = tile.copy();
        self.raise(&mut lifted);
        lifted
    }

    /// Like [`lift`](Self::lift), but in place.
    pub fn raise(&self, tile: &mut Address)
        requires no_deeper { depth (address_of tile.old) ≤ length self.now.digits }
        ensures { address_of tile.new ≡ lifted_in (whole self.now) (address_of tile.old) }
    {
        let above = &self.digits[tile.digits.len()..];
        let _ = tile.digits.try_extend_from_slice(above);
    }
}
