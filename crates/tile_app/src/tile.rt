//! The tile that an address names.
ghost use Rattle.std.specs.Prelude.{◌≡◌, IfOk, IfErr, is_ok};
ghost use Rattle.rule_model.specs.Tiling.{Tiling, tiling_of, children};
ghost use Rattle.tile_shape.specs.Views.{address_of};
ghost use Rattle.tile_app.specs.Tile.{IsTile, IsNoTile, is_tile};

use rule_model::checked::Checked;
use tile_shape::address::Address;
use tile_shape::address_fault::AddressFault;
use tile_shape::reading::read_address;
use tile_shape::uses::Uses;

/// Reads the address of a tile in a tiling with these uses.
pub fn tile_among(uses: &Uses, text: &str) -> Result<Address, AddressFault>
    ensures named { (t : Tiling) → uses.now ≡ children t → IfOk result
        (λ a. IsTile t text.now (address_of a)) }
    ensures refused { (t : Tiling) → uses.now ≡ children t → IfErr result (IsNoTile t text.now) }
    ensures told { (t : Tiling) → uses.now ≡ children t → is_ok result ≡ is_tile t text.now }
{
    read_address(uses, text.as_bytes())
}

/// Reads the address of a tile in the rule's tiling.
pub fn tile_at(checked: &Checked, text: &str) -> Result<Address, AddressFault>
    ensures named { IfOk result (λ a. IsTile (tiling_of checked.now) text.now (address_of a)) }
    ensures refused { IfErr result (IsNoTile (tiling_of checked.now) text.now) }
    ensures told { is_ok result ≡ is_tile (tiling_of checked.now) text.now }
{
    tile_among(checked.uses(), text)
}
