//! The command `place`: where a tile lies in its supertile.
ghost use Rattle.std.specs.Prelude.{◌≡◌, IfOk, IfErr, string_bytes};
ghost use Rattle.theory_addresses.specs.Address.{Fits};
ghost use Rattle.cyclo_points.specs.declared.order.Order.{Order};
ghost use Rattle.cyclo_points.specs.Motion.{motion_in};
ghost use Rattle.cyclo_points.specs.Point.{IsOf};
ghost use Rattle.rule_model.specs.Tiling.{tiling_of, children};
ghost use Rattle.tile_shape.specs.Views.{address_of};
ghost use Rattle.tile_app.specs.Answer.{TileRefuses};
ghost use Rattle.tile_app.specs.Place.{place_line, PrintsPlace, PlaceRefuses};
ghost use Rattle.call_notes.specs.Status.{OrNoMemory};
ghost use Rattle.tile_app.specs.Tile.{OfTile};
ghost use Rattle.tile_app.specs.Tilings.{builtin_tiling};

use crate::tile::{tile_among, tile_at};
use builtin_rules::builtin::uses_of;
use builtin_rules::name::Name;
use builtin_rules::placing::NamedPlacing;
use call_notes::status::Status;
use cyclo_points::motion::Motion;
use rule_model::checked::Checked;
use std::alloc::{AllocError, Global};
use tile_place::place::{place, place_digits};
use tile_shape::address::Address;

/// Returns the line of a tile: its kind, and the turn and the shift of its motion. It does not depend on the
/// order.
fn place_line(alloc: Global, kind: u8, motion: &Motion) -> Result<String, AllocError>
    ensures { IfOk result (λ text. (order : Order) → IsOf order motion.now.shift
        → string_bytes text ≡ place_line order kind (motion_in order motion.now)) }
{
    format!(in alloc; "{kind} {motion}\n")
}

/// Returns what `place` prints for a tile, or its refusal.
fn placed(alloc: Global, checked: &Checked, address: &Address) -> Result<String, Status>
    requires fits { Fits (children (tiling_of checked.now)) (address_of address.now) }
    ensures printed { IfOk result (λ text. PrintsPlace (tiling_of checked.now) (address_of address.now)
        (string_bytes text)) }
    ensures refused { IfErr result (OrNoMemory (PlaceRefuses (tiling_of checked.now)
        (address_of address.now))) }
{
    let motion = place(checked, address)?;
    Ok(place_line(alloc, address.kind, &motion)?)
}

/// Like [`placed`], for a built-in rule, which is not made.
fn placed_by_name(alloc: Global, name: Name, address: &Address) -> Result<String, Status>
    requires fits { Fits (children (builtin_tiling name)) (address_of address.now) }
    ensures printed { IfOk result (λ text. PrintsPlace (builtin_tiling name) (address_of address.now)
        (string_bytes text)) }
    ensures refused { IfErr result (OrNoMemory (PlaceRefuses (builtin_tiling name)
        (address_of address.now))) }
{
    let rule = NamedPlacing::of(name);
    let motion = place_digits(&rule, address.kind, address.digits.as_slice())?;
    Ok(place_line(alloc, address.kind, &motion)?)
}

/// Returns what `place` prints for the tile with this address, or its refusal.
pub fn place_text(alloc: Global, checked: &Checked, addr: &str) -> Result<Vec<u8>, Status>
    ensures printed { IfOk result (λ text. OfTile (tiling_of checked.now) addr.now
        (λ a. PrintsPlace (tiling_of checked.now) a text.items)) }
    ensures refused { IfErr result (OrNoMemory (TileRefuses (tiling_of checked.now) addr.now
        (PlaceRefuses (tiling_of checked.now)))) }
{
    let address = tile_at(checked, addr)?;
    Ok(placed(alloc, checked, &address)?.into_bytes())
}

/// Like [`place_text`], for a built-in rule. It makes only the uses of the rule.
pub fn named_place_text(alloc: Global, name: Name, addr: &str) -> Result<Vec<u8>, Status>
    ensures printed { IfOk result (λ text. OfTile (builtin_tiling name) addr.now
        (λ a. PrintsPlace (builtin_tiling name) a text.items)) }
    ensures refused { IfErr result (OrNoMemory (TileRefuses (builtin_tiling name) addr.now
        (PlaceRefuses (builtin_tiling name)))) }
{
    let uses = uses_of(alloc, name)?;
    let address = tile_among(&uses, addr)?;
    Ok(placed_by_name(alloc, name, &address)?.into_bytes())
}
