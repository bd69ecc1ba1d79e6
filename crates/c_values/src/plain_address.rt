//! Addresses as plain numbers.
ghost use Rattle.std.specs.Prelude.{◌≡◌, ◌↔◌, ◌<◌, ◌≤◌, take, None, Some, IsSome, IsTrue, IfSome};
ghost use Rattle.theory_addresses.specs.Address.{Fits};
ghost use Rattle.rule_model.specs.Tiling.{tiling_of, children};
ghost use Rattle.tile_shape.specs.Views.{address_of};
ghost use Rattle.c_values.specs.Addresses.{address_in, blank_address, NamesTile, ShowsAddress};

use tile_place::machine::Machine;
use tile_shape::address::Address;
use tile_shape::step::Step;

/// An address: the kind of the tile, and `depth` digits, finest first. The digits after them are not read.
#[repr(C)]
#[derive(Clone, Copy)]
pub struct PlainAddress {
    pub kind: u8,
    pub depth: u8,
    pub digits: [Step; 64],
}

impl PlainAddress {
    /// Makes an address with all numbers 0.
    pub fn blank() -> PlainAddress
        ensures { result ≡ blank_address }
    {
        PlainAddress {
            kind: 0,
            depth: 0,
            digits: [Step {
                child: 0,
                parent: 0,
            }; 64],
        }
    }

    /// Returns the address of these numbers, or None exactly if the depth is above 64.
    pub fn read(&self) -> Option<Address>
        ensures seen { IfSome result (λ a. address_of a ≡ address_in self.now) }
        ensures too_deep { (result ≡ None) ↔ (64 < self.now.depth) }
    {
        if self.depth > 64 {
            return None;
        }
        let mut addr = Address::new(self.kind);
        let _ = addr.digits.try_extend_from_slice(self.digits());
        Some(addr)
    }

    /// Returns the digits, finest first. The depth is at most 64.
    pub fn digits(&self) -> &[Step]
        requires no_deeper { self.now.depth ≤ 64 }
        ensures { result.now ≡ take self.now.depth self.now.digits }
    {
        &self.digits[..usize::from(self.depth)]
    }

    /// Returns true if these numbers name a tile of the machine's rule.
    #[inline(always)]
    pub fn names_tile(&self, machine: &Machine) -> bool
        ensures { IsTrue result ↔ NamesTile (tiling_of machine.now) self.now }
    {
        self.depth <= 64 && machine.fits(self.kind, self.digits())
    }

    /// Returns the tile of the machine's rule that these numbers name, or None exactly if they name none.
    pub fn tile(&self, machine: &Machine) -> Option<Address>
        ensures seen { IfSome result (λ a. address_of a ≡ address_in self.now) }
        ensures fits { IfSome result (λ a. Fits (children (tiling_of machine.now)) (address_of a)) }
        ensures named { IsSome result ↔ NamesTile (tiling_of machine.now) self.now }
    {
        if self.names_tile(machine) {
            self.read()
        } else {
            None
        }
    }

    /// Replaces these numbers by those of an address.
    pub fn write(&mut self, addr: &Address)
        ensures { ShowsAddress self.new (address_of addr.now) }
    {
        self.kind = addr.kind;
        self.depth = addr.depth();
        let digits = addr.digits.as_slice();
        self.digits[..digits.len()].copy_from_slice(digits);
    }
}
