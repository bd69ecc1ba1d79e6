//! Replaces the digits of an address by those of a tile found, of its run, and of a frame.
ghost use Rattle.std.specs.Prelude.{◌≡◌, ◌+◌, ◌≤◌, ◌++◌, drop, length};

use arrayvec::ArrayVec;
use tile_shape::step::Step;

/// Returns those digits of a frame that a tile with `depth` digits lacks: the ones from its depth up.
pub(crate) fn behind(above: &[Step], depth: usize) -> &[Step]
    requires { depth ≤ length above.now }
    ensures { result.now ≡ drop depth above.now }
{
    &above[depth..]
}

/// Replaces a list of digits by three lists, one behind another. A list of the same length is overwritten in
/// place.
pub(crate) fn put_digits(
    digits: &mut ArrayVec<Step, 64>,
    fine: &[Step],
    middle: &[Step],
    coarse: &[Step],
)
    requires at_most_64 { length fine.now + length middle.now + length coarse.now ≤ 64 }
    ensures { digits.new.items ≡ fine.now ++ middle.now ++ coarse.now }
{
    if digits.len() == fine.len() + middle.len() + coarse.len() {
        overwrite(digits.as_mut_slice(), fine, middle, coarse);
    } else {
        digits.clear();
        let _ = digits.try_extend_from_slice(fine);
        let _ = digits.try_extend_from_slice(middle);
        let _ = digits.try_extend_from_slice(coarse);
    }
}

/// Overwrites digits by three lists that have as many together.
fn overwrite(digits: &mut [Step], fine: &[Step], middle: &[Step], coarse: &[Step])
    requires as_many { length digits.old ≡ length fine.now + length middle.now + length coarse.now }
    requires at_most_64 { length digits.old ≤ 64 }
    ensures { digits.new ≡ fine.now ++ middle.now ++ coarse.now }
{
    let from = fine.len();
    let to = from + middle.len();
    digits[..from].copy_from_slice(fine);
    digits[from..to].copy_from_slice(middle);
    if to < digits.len() {
        digits[to..].copy_from_slice(coarse);
    }
}
