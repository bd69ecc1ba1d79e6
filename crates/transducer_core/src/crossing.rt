//! A tile across an edge.
ghost use Rattle.std.specs.Prelude.{◌≡◌, []};
ghost use Rattle.tile_shape.specs.Views.{address_of};

use tile_shape::address::Address;

/// The tile across an edge, and its edge that leads back.
#[derive(Debug, Drop, PartialEq, Eq)]
pub struct Crossing {
    /// The address of the tile across, of the same depth.
    pub addr: Address,
    /// The number of its edge that leads back.
    pub edge: u8,
}

/// Puts the digits of an address into `there`, the address of a single tile of its kind. (`Address::copy`
/// moves the whole once more.)
#[inline]
pub fn put_digits(there: &mut Address, addr: &Address)
    requires kind { there.old.kind ≡ addr.now.kind }
    requires alone { there.old.digits.items ≡ [] }
    ensures kind { there.new.kind ≡ addr.now.kind }
    ensures digits { there.new.digits.items ≡ addr.now.digits.items }
    ensures seen { address_of there.new ≡ address_of addr.now }
{
    let _ = there.digits.try_extend_from_slice(addr.digits.as_slice());
}
