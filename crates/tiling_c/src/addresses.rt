//! Addresses and their texts.
ghost use Rattle.std.specs.Prelude.{◌≡◌, ◌↔◌, ◌⊎◌, ◌<◌, ◌≤◌, ◌++◌, length, drop};
ghost use Rattle.rule_model.specs.Tiling.{tiling_of};
ghost use Rattle.tile_shape.specs.Limits.{longest_text};
ghost use Rattle.tile_shape.specs.Text.{address_text};
ghost use Rattle.c_values.specs.Addresses.{address_in, NamesTile};
ghost use Rattle.c_values.specs.Statuses.{ok, bad_words, bad_address};
ghost use Rattle.tiling_c.specs.ReadAddress.{ShowsAddressRead};

use c_values::plain_address::PlainAddress;
use c_values::shared_machine::SharedMachine;
use c_values::status::{BAD_ADDRESS, BAD_WORDS, OK};
use tile_shape::reading::read_address;
use tile_shape::writing::write_address;

/// Reads the text of an address. The address must be that of a tile of the rule.
#[unsafe(no_mangle)]
pub extern "C" fn tiling_read_address(t: SharedMachine, text: &[u8], out: &mut PlainAddress) -> u8
    ensures shown { ShowsAddressRead (tiling_of t.rule) text.now out.new result }
    ensures unchanged { ¬ result ≡ ok → out.new ≡ out.old }
{
    match read_address(t.get().checked().uses(), text) {
        Ok(addr) => {
            out.write(&addr);
            OK
        }
        Err(_) => BAD_ADDRESS,
    }
}

/// Writes the text of an address into the first bytes of `text`: at most 515, with no 0 after them.
#[unsafe(no_mangle)]
pub extern "C" fn tiling_write_address(
    addr: &PlainAddress,
    text: &mut [u8],
    bytes: &mut usize,
) -> u8
    ensures written { result ≡ ok → text.new ≡ address_text (address_in addr.now) ++ drop bytes.new text.old }
    ensures bytes { result ≡ ok → bytes.new ≡ length (address_text (address_in addr.now)) }
    ensures at_most_515 { result ≡ ok → bytes.new ≤ longest_text }
    ensures bad_words { (result ≡ bad_words) ↔ ((64 < addr.now.depth)
        ⊎ (length text.old < length (address_text (address_in addr.now)))) }
    ensures text_unchanged { ¬ result ≡ ok → text.new ≡ text.old }
    ensures bytes_unchanged { ¬ result ≡ ok → bytes.new ≡ bytes.old }
    ensures statuses { (result ≡ ok) ⊎ (result ≡ bad_words) }
{
    let Some(tile) = addr.read() else {
        return BAD_WORDS;
    };
    let written = write_address(&tile);
    let written = written.as_slice();
    if text.len() < written.len() {
        return BAD_WORDS;
    }
    text[..written.len()].copy_from_slice(written);
    *bytes = written.len();
    OK
}

/// Tests if numbers are the address of a tile of the rule.
#[unsafe(no_mangle)]
pub extern "C" fn tiling_fits(t: SharedMachine, addr: &PlainAddress) -> u8
    ensures named { (result ≡ ok) ↔ NamesTile (tiling_of t.rule) addr.now }
    ensures statuses { (result ≡ ok) ⊎ (result ≡ bad_address) }
{
    if addr.names_tile(t.get()) {
        OK
    } else {
        BAD_ADDRESS
    }
}
