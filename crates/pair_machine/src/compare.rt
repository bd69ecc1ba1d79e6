//! Two addresses compared.
ghost use Rattle.std.specs.Prelude.{◌≡◌, ◌↔◌, ◌≤◌, ◌&&◌, ◌==◌, length, drop, IsTrue};
ghost use Rattle.pair_machine.specs.Between.{HaveCommon};
ghost use Rattle.tile_shape.specs.Views.{address_of};

use tile_shape::address::Address;
use tile_shape::step::Step;

/// Returns true if two addresses have a common supertile.
pub fn have_common(a: &Address, b: &Address) -> bool
    ensures { IsTrue result ↔ HaveCommon (address_of a.now) (address_of b.now) }
{
    let depth = a.depth();
    if b.depth() != depth {
        return false;
    }
    a.kind_at(depth) == b.kind_at(depth)
}

/// Returns true if two addresses are the same.
pub fn are_same(addr: &Address, other: &Address) -> bool
    ensures { IsTrue result ↔ (address_of addr.now ≡ address_of other.now) }
{
    addr == other
}

/// Returns true if two digits are the same.
fn same_digit(x: Step, y: Step) -> bool
    ensures { IsTrue result ↔ (x ≡ y) }
{
    x == y
}

/// Returns the level from which on all digits are the same: the number of digits up to the coarsest that
/// differs.
pub(crate) fn parting(xs: &[Step], ys: &[Step]) -> usize
    requires one_depth { length xs.now ≡ length ys.now }
    ensures within { result ≤ length xs.now }
    ensures same_above { drop result xs.now ≡ drop result ys.now }
{
    let mut level = xs.len();
    while level > 0 {
        if !same_digit(xs[level - 1], ys[level - 1]) {
            return level;
        }
        level -= 1;
    }
    level
}

/// Returns true if two numbers are the same and `more` is true.
pub(crate) fn also(a: u8, b: u8, more: bool) -> bool
    ensures { result ≡ ((a == b) && more) }
{
    a == b && more
}
