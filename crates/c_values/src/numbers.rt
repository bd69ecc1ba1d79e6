//! Small numbers in arrays.
ghost use Rattle.std.specs.Prelude.{◌≡◌, ◌≤◌, length};
ghost use Rattle.c_values.specs.Rules.{padded};

/// Puts numbers into an array, and 0 after them.
pub(crate) fn put_numbers(numbers: &[u8], out: &mut [u8])
    requires room { length numbers.now ≤ length out.old }
    ensures { out.new ≡ padded (length out.old) 0 numbers.now }
{
    out.fill(0);
    out[..numbers.len()].copy_from_slice(numbers);
}
