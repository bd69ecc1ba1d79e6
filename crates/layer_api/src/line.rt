//! A line in fixed storage.
ghost use Rattle.std.specs.Prelude.{◌≡◌, ◌+◌, ◌-◌, ◌<◌, ◌≤◌, [], ◌∷◌, ◌++◌, length, drop};
ghost use Rattle.std.specs.Fmt.{decimal, signed_decimal};
ghost use Rattle.cyclo_points.specs.Text.{motion_text};
ghost use Rattle.layer_api.specs.KeptPair.{pair_text};
ghost use Rattle.layer_api.specs.declared.line.TheConstants.{LINE_ROOM};
ghost use Rattle.tile_shape.specs.Text.{address_text};
ghost use Rattle.tile_shape.specs.Views.{address_of};

use crate::backwards::{overwrite, write_signed, write_small, write_steps};
use crate::kept_pair::KeptPair;
use cyclo_points::motion::Motion;
use itoa::write_digits;
use std::marker::Model;
use tile_shape::address::Address;

/// The number of bytes for which a line has room.
pub const LINE_ROOM: usize = 1536;

/// A line in fixed storage, written from the end to the beginning: each call puts its text in front of the
/// line. Division gives the digits of a number from the last one on, so this order needs no second pass.
#[derive(Drop)]
pub struct Line {
    bytes: [u8; LINE_ROOM],
    /// Where the line begins.
    start: usize,
    /// The first two coefficients of the last motion, with their text.
    kept: KeptPair,
}

impl Model for Line {
    ghost use Rattle.layer_api.specs.KeptPair.{IsPairKept};
    ghost use Rattle.std.specs.Prelude.{ℕ, List, ◌≤◌, drop};

    ghost Value = { List ℕ };

    ghost view = { λ l. drop l.start l.bytes };

    ghost invariant = { λ l. (l.start ≤ 1536) × IsPairKept l.kept };
}

impl Line {
    /// Makes an empty line.
    pub fn new() -> Line
        ensures { result ≡ [] }
    {
        Line {
            bytes: [0; LINE_ROOM],
            start: LINE_ROOM,
            kept: KeptPair::none(),
        }
    }

    /// Empties the line.
    #[inline]
    pub fn clear(&mut self)
        ensures { self.new ≡ [] }
    {
        self.start = LINE_ROOM;
    }

    /// Puts a byte in front. There must be room.
    #[inline]
    pub fn put(&mut self, byte: u8)
        requires room { length self.old < LINE_ROOM }
        ensures { self.new ≡ byte ∷ self.old }
    {
        self.start -= 1;
        self.bytes[self.start] = byte;
    }

    /// Puts a text in front. There must be room.
    #[inline]
    pub fn put_text(&mut self, text: &[u8])
        requires room { length text.now + length self.old ≤ LINE_ROOM }
        ensures { self.new ≡ text.now ++ self.old }
    {
        let end = self.start;
        self.start -= text.len();
        self.bytes[self.start..end].copy_from_slice(text);
    }

    /// Puts the last `count` bytes of a text of 32 bytes in front. It moves all 32 at once.
    #[inline]
    pub fn put_last(&mut self, text: &[u8; 32], count: usize)
        requires count { count ≤ 32 }
        requires room { length self.old + 32 ≤ LINE_ROOM }
        ensures last { self.new ≡ drop (32 - count) text.now ++ self.old }
        ensures at_most { length self.new ≤ length self.old + 32 }
    {
        overwrite(&mut self.bytes[self.start - 32..self.start], text);
        self.start -= count;
    }

    /// Puts a number in front, in decimal.
    #[inline]
    pub fn put_number(&mut self, number: u64)
        requires room { length self.old + 20 ≤ LINE_ROOM }
        ensures number { self.new ≡ decimal number ++ self.old }
        ensures at_most { length self.new ≤ length self.old + 20 }
    {
        self.start = write_digits(number, &mut self.bytes, self.start);
    }

    /// Puts a number below 256 in front, in decimal.
    #[inline]
    pub fn put_small(&mut self, number: u8)
        requires room { length self.old + 3 ≤ LINE_ROOM }
        ensures number { self.new ≡ decimal number ++ self.old }
        ensures at_most { length self.new ≤ length self.old + 3 }
    {
        self.start = write_small(number, &mut self.bytes, self.start);
    }

    /// Puts a signed number in front, in decimal.
    #[inline]
    pub fn put_signed(&mut self, number: i64)
        requires room { length self.old + 21 ≤ LINE_ROOM }
        ensures number { self.new ≡ signed_decimal number ++ self.old }
        ensures at_most { length self.new ≤ length self.old + 21 }
    {
        self.start = write_signed(number, &mut self.bytes, self.start);
    }

    /// Puts a motion in front: its turn and its shift, with a space between.
    pub fn put_motion(&mut self, motion: &Motion)
        requires room { length self.old + 91 ≤ LINE_ROOM }
        ensures motion { self.new ≡ motion_text motion.now ++ self.old }
        ensures at_most { length self.new ≤ length self.old + 91 }
    {
        let c = &motion.shift.c;
        self.put_signed(c[3]);
        self.put(b',');
        self.put_signed(c[2]);
        self.put_pair(c[0], c[1]);
        self.put(b' ');
        self.put_small(motion.turn);
    }

    /// Puts two numbers in front, a comma after each. If they are those of the call before, their text is
    /// copied: tiles come in order, so the first coefficients seldom change.
    #[inline]
    fn put_pair(&mut self, first: i64, second: i64)
        requires room { length self.old + 44 ≤ LINE_ROOM }
        ensures pair { self.new ≡ pair_text first second ++ self.old }
        ensures at_most { length self.new ≤ length self.old + 44 }
    {
        let kept = self.kept;
        if kept.has(first, second) {
            self.put_last(&kept.text, kept.length);
        } else {
            self.put_and_keep(first, second);
        }
    }

    /// Puts two numbers in front, a comma after each, and keeps their text.
    #[inline(never)]
    fn put_and_keep(&mut self, first: i64, second: i64)
        requires room { length self.old + 44 ≤ LINE_ROOM }
        ensures pair { self.new ≡ pair_text first second ++ self.old }
        ensures at_most { length self.new ≤ length self.old + 44 }
    {
        let before = self.as_bytes().len();
        self.put(b',');
        self.put_signed(second);
        self.put(b',');
        self.put_signed(first);
        let mut kept = self.kept;
        let line = self.as_bytes();
        kept.keep(first, second, &line[..line.len() - before]);
        self.kept = kept;
    }

    /// Puts the text of an address in front.
    pub fn put_address(&mut self, addr: &Address)
        requires room { length self.old + 516 ≤ LINE_ROOM }
        ensures address { self.new ≡ address_text (address_of addr.now) ++ self.old }
        ensures at_most { length self.new ≤ length self.old + 516 }
    {
        let digits = write_steps(addr.digits.as_slice(), &mut self.bytes, self.start) - 1;
        self.bytes[digits] = b':';
        self.start = write_small(addr.kind, &mut self.bytes, digits);
    }

    /// Returns the bytes of the line.
    #[inline]
    pub fn as_bytes(&self) -> &[u8]
        ensures { result.now ≡ self.now }
    {
        &self.bytes[self.start..]
    }
}
