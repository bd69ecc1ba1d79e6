//! Writes texts from the end to the beginning, into a buffer that already holds what follows them.
//!
//! Each function writes a text that ends before `end`, and returns where the text begins. Division gives the
//! digits of a number from the last one on, so this order needs no second pass.
ghost use Rattle.std.specs.Prelude.{◌≡◌, ◌+◌, ◌*◌, ◌%◌, ◌<◌, ◌≤◌, [], ◌++◌, ◌∷◌, map, length, take, drop, IsTrue};
ghost use Rattle.std.specs.Fmt.{decimal, signed_decimal};
ghost use Rattle.tile_shape.specs.Text.{digit_text, digits_text, comma};
ghost use Rattle.tile_shape.specs.Views.{step_of};

use itoa::write_digits;
use tile_shape::step::Step;

/// Writes a signed number in decimal.
#[inline]
pub(crate) fn write_signed(number: i64, buf: &mut [u8], end: usize) -> usize
    requires room { 21 ≤ end }
    requires inside { end ≤ length buf.old }
    ensures written { drop result buf.new ≡ signed_decimal number ++ drop end buf.old }
    ensures before { result ≤ end }
    ensures at_most { end ≤ result + 21 }
{
    let start = write_digits(number.unsigned_abs(), buf, end);
    if number >= 0 {
        return start;
    }
    buf[start - 1] = b'-';
    start - 1
}

/// Writes a number below 256 in decimal.
#[inline]
pub(crate) fn write_small(number: u8, buf: &mut [u8], end: usize) -> usize
    requires room { 3 ≤ end }
    requires inside { end ≤ length buf.old }
    ensures written { drop result buf.new ≡ decimal number ++ drop end buf.old }
    ensures before { result ≤ end }
    ensures at_most { end ≤ result + 3 }
{
    if number < 10 {
        buf[end - 1] = b'0' + number;
        return end - 1;
    }
    write_digits(u64::from(number), buf, end)
}

/// Writes a digit of an address: the child, a slash and the kind of the parent.
#[inline]
fn write_step(step: Step, buf: &mut [u8], end: usize) -> usize
    requires room { 7 ≤ end }
    requires inside { end ≤ length buf.old }
    ensures written { drop result buf.new ≡ digit_text (step_of step) ++ drop end buf.old }
    ensures before { result ≤ end }
    ensures at_most { end ≤ result + 7 }
{
    let parent = write_small(step.parent, buf, end) - 1;
    buf[parent] = b'/';
    write_small(step.child, buf, parent)
}

/// Writes a digit of an address and the comma that follows it.
#[inline]
fn write_step_with_comma(step: Step, buf: &mut [u8], end: usize) -> usize
    requires room { 8 ≤ end }
    requires inside { end ≤ length buf.old }
    ensures written { drop result buf.new ≡ digit_text (step_of step) ++ comma ∷ drop end buf.old }
    ensures before { result ≤ end }
    ensures at_most { end ≤ result + 8 }
{
    buf[end - 1] = b',';
    if step.child < 10 && step.parent < 10 {
        buf[end - 2] = b'0' + step.parent;
        buf[end - 3] = b'/';
        buf[end - 4] = b'0' + step.child;
        return end - 4;
    }
    write_step(step, buf, end - 1)
}

/// Packs the two numbers of a digit into one, 16 bits apart.
#[inline]
fn numbers_of(step: Step) -> u32
    ensures numbers { result ≡ step.child + step.parent * 65536 }
    ensures at_most { result ≤ 16711935 }
{
    u32::from(step.child) + u32::from(step.parent) * 65536
}

/// Like [`numbers_of`], with 118 added to each, so that a number with two or three decimal digits is above
/// 127.
#[inline]
fn raised_numbers_of(step: Step) -> u32
    ensures child { result % 65536 < 128 → step.child < 10 }
    ensures parent { result < 8388608 → step.parent < 10 }
{
    numbers_of(step) + 0x76_0076
}

/// Overwrites all bytes of `out` in one move. `copy_from_slice` would first test if the two overlap.
#[inline]
pub(crate) fn overwrite<const N: usize>(out: &mut [u8], bytes: &[u8; N])
    requires { length out.old ≡ N }
    ensures { out.new ≡ bytes.now }
{
    if let Some(all) = out.first_chunk_mut() {
        *all = *bytes;
    }
}

/// Writes a digit and a comma into the four bytes at `place`, as if each of its numbers had one decimal
/// digit.
#[inline]
fn write_word(step: Step, out: &mut [u8], place: usize)
    requires inside { place + 4 ≤ length out.old }
    ensures inside { length out.new ≡ length out.old }
    ensures written { step.child < 10 → step.parent < 10 → take (place + 4) out.new ≡ take place out.old
        ++ digit_text (step_of step) ++ comma ∷ [] }
{
    let word = numbers_of(step) + 0x2c30_2f30;
    overwrite(&mut out[place..place + 4], &word.to_le_bytes());
}

/// Writes digits of an address, each followed by a comma, as if each number had one decimal digit. Returns
/// true only if all have.
fn write_words(steps: &[Step], out: &mut [u8]) -> bool
    requires some { 0 < length steps.now }
    requires room { length out.old ≡ 4 * length steps.now }
    ensures room { length out.new ≡ length out.old }
    ensures written { IsTrue result → out.new ≡ digits_text (map step_of steps.now) ++ comma ∷ [] }
{
    let mut joined: u32 = 0;
    for i in 0..steps.len() {
        let step = steps[i];
        joined = joined | raised_numbers_of(step);
        write_word(step, out, 4 * i);
    }
    joined < 0x80_0000 && joined % 65536 < 128
}

/// Writes the digits of an address, with commas between them, one after another.
#[cold]
#[inline(never)]
fn write_each_step(steps: &[Step], buf: &mut [u8], end: usize) -> usize
    requires some { 0 < length steps.now }
    requires room { 8 * length steps.now ≤ end }
    requires inside { end ≤ length buf.old }
    ensures written { drop result buf.new ≡ digits_text (map step_of steps.now) ++ drop end buf.old }
    ensures before { result ≤ end }
    ensures at_most { end ≤ result + 8 * length steps.now }
{
    let mut level = steps.len() - 1;
    let mut at = write_step(steps[level], buf, end);
    while level > 0 {
        level -= 1;
        at = write_step_with_comma(steps[level], buf, at);
    }
    at
}

/// Writes the digits of an address, with commas between them. If each number has one decimal digit and a byte
/// follows, it writes four bytes at a time, and the last comma falls on that byte.
pub(crate) fn write_steps(steps: &[Step], buf: &mut [u8], end: usize) -> usize
    requires room { 8 * length steps.now ≤ end }
    requires inside { end ≤ length buf.old }
    ensures written { drop result buf.new ≡ digits_text (map step_of steps.now) ++ drop end buf.old }
    ensures before { result ≤ end }
    ensures at_most { end ≤ result + 8 * length steps.now }
{
    if steps.is_empty() {
        return end;
    }
    if end < buf.len() {
        let follows = buf[end];
        let start = end + 1 - 4 * steps.len();
        let is_right = write_words(steps, &mut buf[start..end + 1]);
        buf[end] = follows;
        if is_right {
            return start;
        }
    }
    write_each_step(steps, buf, end)
}
