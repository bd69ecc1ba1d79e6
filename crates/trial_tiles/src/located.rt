//! The tile located at a point, compared with a list of all tiles of supertiles of depth up to 4. The points
//! are the vertices of each tile, and the midpoints of edges and points inside that are points of the ring.
use crate::wrong::assert_of;
use builtin_rules::name::Name;
use std::test::Fail;
use trial_plain_tiles::built_in::machine_of;
use trial_plain_tiles::counts::Counts;
use trial_plain_tiles::located::located;

/// The built-in rules, each with the number of points of all its supertiles. A chair's supertile of depth d,
/// whose long sides are 2n = 2^(d + 1), has 3n² + 4n + 1 of them.
const NAMES: [(Name, u32); 5] = [
    (Name::Chair, 8 + 21 + 65 + 225 + 833),
    (Name::P2, 974),
    (Name::P3, 972),
    (Name::AmmannBeenker, 15_254),
    (Name::HalfHex, 594),
];

#[test]
fn locates_each_tile_of_supertiles(rt: HostRuntime) -> Result<(), Fail> {
    for (name, points) in NAMES {
        let machine = machine_of(rt.alloc(), name)?;
        let counts = located(rt.alloc(), &machine, u64::MAX)?;
        let wanted = Counts {
            right: points,
            differ: 0,
        };
        assert_of(&rt, name, counts == wanted);
    }
    Ok(())
}
