//! Addresses compared.
ghost use Rattle.std.specs.Prelude.{◌≡◌, ◌↔◌, IsTrue};
ghost use Rattle.tile_shape.specs.Views.{address_of};

use tile_shape::address::Address;

/// Returns true if two addresses are the same.
pub(crate) fn is_same_address(a: &Address, b: &Address) -> bool
    ensures { IsTrue result ↔ (address_of a.now ≡ address_of b.now) }
{
    a.kind == b.kind && a.digits.as_slice() == b.digits.as_slice()
}
