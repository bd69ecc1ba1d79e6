//! The names as they are bound.
ghost use Rattle.std.specs.Prelude.{◌≡◌, IfOk, option_map};
ghost use Rattle.addr_calc.specs.Bindings.{none_bound, address_of_name, bind};
ghost use Rattle.tile_shape.specs.Views.{address_of};

use crate::name::Name;
use std::alloc::{AllocError, Global};
use std::marker::Model;
use tile_shape::address::Address;

/// How many names there are.
const NAMES: usize = 26;

/// For each name the address to which it is bound, if it is.
#[derive(Drop)]
pub struct Bindings {
    addresses: Vec<Option<Address>>,
}

impl Model for Bindings {
    ghost use Rattle.std.specs.Prelude.{◌≡◌, List, map, option_map, length};
    ghost use Rattle.std.specs.declared.option.Option.{Option};
    ghost use Rattle.theory_addresses.specs.Address.{Address as TheAddress};
    ghost use Rattle.tile_shape.specs.Views.{address_of};

    ghost Value = { List (Option TheAddress) };

    ghost view = { λ b. map (option_map address_of) b.addresses.items };

    ghost invariant = { λ b. length b.addresses.items ≡ 26 };
}

impl Bindings {
    /// Makes the names, none of which is bound.
    pub fn new(alloc: Global) -> Result<Bindings, AllocError>
        ensures { IfOk result (λ names. names ≡ none_bound) }
    {
        let mut addresses = Vec::with_capacity(alloc, NAMES)?;
        for _ in 0..NAMES {
            addresses.push(None)?;
        }
        Ok(Bindings { addresses })
    }

    /// Returns the address to which a name is bound.
    #[inline]
    pub fn get(&self, name: Name) -> Option<&Address>
        ensures { option_map (λ a. address_of a.now) result ≡ address_of_name self.now name.number }
    {
        self.addresses[name.number()].as_ref()
    }

    /// Binds a name to an address, instead of the one to which it was bound before.
    pub fn bind(&mut self, name: Name, address: Address)
        ensures { self.new ≡ bind self.old name.number (address_of address) }
    {
        self.addresses[name.number()] = Some(address);
    }
}
