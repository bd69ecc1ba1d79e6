//! Walks through frames that grow, there and back: many short ones, and a long one of each rule.
ghost use Rattle.std.specs.Prelude.{◌≡◌, ◌<◌};

use crate::wrong::assert_of;
use builtin_rules::name::Name;
use edge_tables::steps::Steps;
use std::alloc::Global;
use std::marker::Brand;
use std::sync::ledger::{Blank, Ledger};
use std::test::Fail;
use trial_plain_tiles::built_in::{NAMES, machine_of};
use trial_plain_tiles::counts::Counts;
use trial_plain_tiles::draws::Draws;
use trial_plain_tiles::walks::{walked, walks};

/// How 1,000 walks come out, and the depth to which a frame grows for a walk of 1,000 edges.
fn counted<L: Ledger>(alloc: Global, name: Name, blank: Blank) -> Result<(Counts, Option<u8>), Fail>
    requires name { blank.name ≡ L.name }
    requires parts { blank.parts ≡ L.parts }
    requires some { 0 < blank.parts }
{
    let mut steps = Steps::<L>::new(blank);
    let machine = machine_of(alloc, name)?;
    let counts = walks(alloc, &machine, 1000, &mut steps)?;
    let mut draws = Draws { state: 7 };
    let depth = walked(alloc, &machine, 0, 1000, &mut draws, &mut steps)?;
    Ok((counts, depth))
}

#[test]
fn walks_lead_back(rt: HostRuntime) -> Result<(), Fail> {
    let wanted = Counts {
        right: 1000,
        differ: 0,
    };
    for name in NAMES {
        let (counts, depth) = counted::<Brand>(rt.alloc(), name, Blank::new(1))?;
        assert_of(&rt, name, counts == wanted && depth >= Some(5));
    }
    Ok(())
}
