//! From which level on two addresses agree.
ghost use Rattle.std.specs.Prelude.{◌≡◌, ◌-◌, ◌<◌, ◌↔◌, length, IsTrue};
ghost use Rattle.addr_calc.specs.Level.{AgreeFrom, IsCommonLevel};
ghost use Rattle.tile_shape.specs.Views.{address_of};

use tile_shape::address::Address;

/// Returns the least level from which on two addresses agree: their kinds there are equal, and so are all
/// digits from its number up. It returns None if and only if their depths differ, or their topmost kinds.
pub fn common_level(one: &Address, other: &Address) -> Option<u8>
    ensures { IsCommonLevel (address_of one.now) (address_of other.now) result }
{
    let mut level = one.depth();
    if other.depth() != level || one.kind_at(level) != other.kind_at(level) {
        return None;
    }
    while level > 0 && agree_below(one, other, level) {
        level -= 1;
    }
    Some(level)
}

/// Returns true if two addresses that agree from a level on agree from the one below it, too.
fn agree_below(one: &Address, other: &Address, level: u8) -> bool
    requires agree { AgreeFrom (address_of one.now) (address_of other.now) level }
    requires one_depth { length one.now.digits.items ≡ length other.now.digits.items }
    requires above_0 { 0 < level }
    ensures { IsTrue result ↔ AgreeFrom (address_of one.now) (address_of other.now) (level - 1) }
{
    let below = level - 1;
    let digit = usize::from(below);
    one.digits[digit] == other.digits[digit] && one.kind_at(below) == other.kind_at(below)
}
