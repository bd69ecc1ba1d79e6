//! Edges of tiles with 64 digits: the motion of the tile across, by gluing and by placing both tiles.
ghost use Rattle.std.specs.Prelude.{◌≡◌, ◌<◌};

use crate::placed::{across, followed, glue_motion};
use crate::wrong::assert_of;
use builtin_rules::name::Name;
use cyclo_points::motion::Motion;
use edge_tables::steps::Steps;
use std::alloc::Global;
use std::marker::Brand;
use std::sync::ledger::{Blank, Ledger};
use std::test::Fail;
use tile_place::machine::Machine;
use tile_shape::address::Address;
use transducer_core::crossing::Crossing;
use trial_plain_tiles::built_in::{NAMES, machine_of};
use trial_plain_tiles::draws::Draws;

/// The address in the ancestor at this level.
fn below(addr: &Address, level: usize) -> Address {
    let mut short = Address::new(addr.kind);
    for digit in addr.digits.as_slice().iter().take(level) {
        let _ = short.push_coarse(*digit);
    }
    short
}

/// The least level from which on two addresses have the same digits.
fn common_level(a: &Address, b: &Address) -> usize {
    let mut level = 0;
    for (number, (x, y)) in a.digits.iter().zip(b.digits.iter()).enumerate() {
        if x != y {
            level = number.saturating_add(1);
        }
    }
    level
}

/// Where a tile lies; None where there is none of that address, or a value is refused.
fn place(machine: &Machine, addr: &Address) -> Option<Motion> {
    if !machine.checked().uses().fits(addr) {
        return None;
    }
    machine.place(addr).ok()
}

/// Returns true if the tile across an edge lies, in the least supertile that both share, where the gluing
/// motion puts it.
fn is_glued(machine: &Machine, a: &Address, edge: u8, b: &Address, back: u8) -> bool {
    let level = common_level(a, b);
    let own = place(machine, &below(a, level));
    let other = place(machine, &below(b, level));
    let motion = glue_motion(machine, a.kind, edge, b.kind, back);
    let order = machine.checked().order();
    match (own, other, motion) {
        (Some(own), Some(other), Some(motion)) => followed(order, &motion, &own) == Some(other),
        _ => false,
    }
}

/// Returns how many of these random edges have a tile across that is glued and from which the way back leads
/// back, and how many lie outside.
fn counted<L: Ledger>(alloc: Global, name: Name, blank: Blank) -> Result<(u32, u32), Fail>
    requires name { blank.name ≡ L.name }
    requires parts { blank.parts ≡ L.parts }
    requires some { 0 < blank.parts }
{
    let mut steps = Steps::<L>::new(blank);
    let machine = machine_of(alloc, name)?;
    let mut draws = Draws { state: 42 };
    let mut glued: u32 = 0;
    let mut outside: u32 = 0;
    for _ in 0..1000 {
        if let Some(addr) = draws.address(&machine, 64, true) {
            let edge = u8::try_from(draws.below(3)).unwrap_or(0);
            match across(&machine, &addr, edge, &mut steps) {
                Some(
                    Ok(
                        Crossing {
                            addr: b,
                            edge: back,
                        },
                    ),
                ) => {
                    let home = Some(Ok(Crossing {
                        addr: addr.copy(),
                        edge,
                    }));
                    if is_glued(&machine, &addr, edge, &b, back)
                        && across(&machine, &b, back, &mut steps) == home
                    {
                        glued = glued.saturating_add(1);
                    }
                }
                Some(Err(_)) => outside = outside.saturating_add(1),
                None => (),
            }
        }
    }
    Ok((glued, outside))
}

#[test]
fn far_up(rt: HostRuntime) -> Result<(), Fail> {
    for name in NAMES {
        let counts = counted::<Brand>(rt.alloc(), name, Blank::new(1))?;
        assert_of(&rt, name, counts == (1000, 0));
    }
    Ok(())
}
