//! A line in fixed storage. Each field that is put follows a space.
ghost use Rattle.std.specs.Prelude.{◌≡◌, ◌+◌, ◌≤◌, ◌∷◌, ◌++◌, codes, length, decimal};
ghost use Rattle.std.specs.Fmt.{signed_decimal};
ghost use Rattle.arrayvec.specs.ArrayString.{array_string_len};
ghost use Rattle.tile_shape.specs.Text.{address_text};
ghost use Rattle.tile_shape.specs.Views.{address_of};
ghost use Rattle.cyclo_points.specs.Text.{motion_text, point_text, blank};

use arrayvec::ArrayString;
use cyclo_points::motion::Motion;
use cyclo_points::point::Point;
use itoa::Buffer;
use tile_shape::address::Address;
use tile_shape::writing::write_address;

/// The number of bytes for which a line has room.
pub const LINE_ROOM: usize = 640;

/// Puts a space and a name.
pub fn put_word(line: &mut ArrayString<LINE_ROOM>, word: &str)
    requires room { array_string_len line.old + length word.now + 1 ≤ LINE_ROOM }
    ensures { line.new.bytes ≡ line.old.bytes ++ blank ∷ word.now }
{
    line.push_str(" ");
    line.push_str(word);
}

/// Puts a space and a number, in decimal.
pub fn put_number(line: &mut ArrayString<LINE_ROOM>, number: u64)
    requires room { array_string_len line.old + 21 ≤ LINE_ROOM }
    ensures number { line.new.bytes ≡ line.old.bytes ++ blank ∷ decimal number }
    ensures at_most { array_string_len line.new ≤ array_string_len line.old + 21 }
{
    let mut figures = Buffer::new();
    put_word(line, figures.format(number));
}

/// Puts a name and a number, each after a space.
pub fn put_numbered(line: &mut ArrayString<LINE_ROOM>, word: &str, number: u64)
    requires room { array_string_len line.old + length word.now + 22 ≤ LINE_ROOM }
    ensures numbered { line.new.bytes ≡ line.old.bytes ++ blank ∷ (word.now ++ blank ∷ decimal number) }
    ensures at_most { array_string_len line.new ≤ array_string_len line.old + length word.now + 22 }
{
    put_word(line, word);
    put_number(line, number);
}

/// Puts a name and two numbers, each after a space.
pub fn put_pair(line: &mut ArrayString<LINE_ROOM>, word: &str, first: u8, second: u8)
    requires room { array_string_len line.old + length word.now + 43 ≤ LINE_ROOM }
    ensures pair { line.new.bytes ≡ line.old.bytes ++ blank
        ∷ (word.now ++ blank ∷ decimal first ++ blank ∷ decimal second) }
    ensures at_most { array_string_len line.new ≤ array_string_len line.old + length word.now + 43 }
{
    put_numbered(line, word, u64::from(first));
    put_number(line, u64::from(second));
}

/// Puts a signed number in decimal, without a space.
fn put_signed(line: &mut ArrayString<LINE_ROOM>, number: i64)
    requires room { array_string_len line.old + 20 ≤ LINE_ROOM }
    ensures number { line.new.bytes ≡ line.old.bytes ++ signed_decimal number }
    ensures at_most { array_string_len line.new ≤ array_string_len line.old + 20 }
{
    let mut figures = Buffer::new();
    line.push_str(figures.format(number));
}

/// Puts a space and the text of an address.
pub fn put_address(line: &mut ArrayString<LINE_ROOM>, addr: &Address)
    requires room { array_string_len line.old + 516 ≤ LINE_ROOM }
    ensures address { line.new.bytes ≡ line.old.bytes ++ blank ∷ address_text (address_of addr.now) }
    ensures at_most { array_string_len line.new ≤ array_string_len line.old + 516 }
{
    let text = write_address(addr);
    put_word(line, str::from_utf8(text.as_slice()).unwrap());
}

/// Puts a space and a point: its four coefficients, with commas between them.
pub fn put_point(line: &mut ArrayString<LINE_ROOM>, point: &Point)
    requires room { array_string_len line.old + 84 ≤ LINE_ROOM }
    ensures point { line.new.bytes ≡ line.old.bytes ++ blank ∷ point_text point.now }
    ensures at_most { array_string_len line.new ≤ array_string_len line.old + 84 }
{
    line.push_str(" ");
    put_signed(line, point.c[0]);
    line.push_str(",");
    put_signed(line, point.c[1]);
    line.push_str(",");
    put_signed(line, point.c[2]);
    line.push_str(",");
    put_signed(line, point.c[3]);
}

/// Puts a motion: its turn and its shift, each after a space.
pub fn put_motion(line: &mut ArrayString<LINE_ROOM>, motion: &Motion)
    requires room { array_string_len line.old + 105 ≤ LINE_ROOM }
    ensures motion { line.new.bytes ≡ line.old.bytes ++ blank ∷ motion_text motion.now }
    ensures at_most { array_string_len line.new ≤ array_string_len line.old + 105 }
{
    put_number(line, u64::from(motion.turn));
    put_point(line, &motion.shift);
}

/// Puts a `DepthLimit`: the tile and the edge that is on the boundary at depth 64.
pub fn put_depth_limit(line: &mut ArrayString<LINE_ROOM>, addr: &Address, edge: u8)
    requires room { array_string_len line.old + 548 ≤ LINE_ROOM }
    ensures limit { line.new.bytes ≡ line.old.bytes ++ blank
        ∷ (codes "DepthLimit " ++ address_text (address_of addr.now) ++ blank ∷ decimal edge) }
    ensures at_most { array_string_len line.new ≤ array_string_len line.old + 548 }
{
    put_word(line, "DepthLimit");
    put_address(line, addr);
    put_number(line, u64::from(edge));
}
