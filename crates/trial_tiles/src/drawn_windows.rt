//! Windows that are drawn, against a list of all tiles of the frame.
use crate::wrong::assert_of;
use std::test::Fail;
use trial_plain_tiles::built_in::{NAMES, machine_of};
use trial_plain_tiles::counts::Counts;
use trial_plain_tiles::window_tiles::windows;

/// The greatest number of tiles of a frame that is listed.
pub(crate) const MOST_TILES: u64 = 1100;

#[test]
fn drawn_windows(rt: HostRuntime) -> Result<(), Fail> {
    let wanted = Counts {
        right: 100,
        differ: 0,
    };
    for name in NAMES {
        let machine = machine_of(rt.alloc(), name)?;
        let (counts, tiles) = windows(rt.alloc(), &machine, 100, MOST_TILES)?;
        assert_of(&rt, name, counts == wanted && tiles >= 400);
    }
    Ok(())
}
