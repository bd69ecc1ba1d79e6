//! Listings for `verify`, and what is said of them.
use crate::told::{SOUND, told_over};
use std::alloc::{AllocError, Global};
use tile_io::mem_source::MemSource;
use tile_shape::no_memory::NoMemory;

/// The window of two chairs around the base.
const WINDOW: &str = "verify rule=chair seed=42 addr=0: at=1,1,0,0 half=2,1";

/// Right listings of it, and listings with a fault.
pub const LISTINGS: &str = "\
verify rule=chair seed=42 addr=0: at=1,1,0,0 half=2,1 | 0 0 0,0,0,0 0:3/0¶0 1 3,1,0,0 0:1/0¶ | 0 right 2¶|
verify rule=chair seed=42 addr=0: at=1,1,0,0 half=2,1 | 0 0 0,0,0,0 0:3/0¶0 1 3,1,0,0 0:1/0 | 0 right 2¶|
verify rule=chair seed=42 addr=0: at=1,1,0,0 half=2,1 | 0 1 3,1,0,0 0:1/0¶0 0 0,0,0,0 0:3/0¶ | 0 right 2¶|
verify rule=chair seed=42 addr=0: at=1,1,0,0 half=2,1 | 0 0 0,0,0,0 0:¶0 1 3,1,0,0 0:1/0¶ | 0 right 2¶|
verify rule=chair seed=42 addr=0: at=1,1,0,0 half=2,1 | 0 0 0,0,0,0 0:3/0¶0 1 3,1,0,0 0:1/0 + x¶ | 17 |17 BadListing BadLine 2 4¶
verify rule=chair seed=42 addr=0: at=1,1,0,0 half=2,1 | ¶ | 17 |17 BadListing BadLine 1 0¶
verify rule=chair seed=42 addr=0: at=1,1,0,0 half=2,1 | 0 0 0,0,0,0 0:¶¶ | 17 |17 BadListing BadLine 2 0¶
verify rule=chair seed=42 addr=0: at=1,1,0,0 half=2,1 | 0 0 0,0,0,0 0:¶¶0 0 0,0,0,0 0: | 17 |17 BadListing BadLine 2 0¶
verify rule=chair seed=42 addr=0: at=1,1,0,0 half=2,1 | 0 0 0,0,0 0: x¶ | 17 |17 BadListing BadLine 1 2¶
verify rule=chair seed=42 addr=0: at=1,1,0,0 half=2,1 | 0 x¶ | 17 |17 BadListing BadLine 1 1¶
verify rule=chair seed=42 addr=0: at=1,1,0,0 half=2,1 | 0¶ | 17 |17 BadListing BadLine 1 1¶
verify rule=chair seed=42 addr=0: at=1,1,0,0 half=2,1 | 0 ¶ | 17 |17 BadListing BadLine 1 1¶
verify rule=chair seed=42 addr=0: at=1,1,0,0 half=2,1 | 0 0¶ | 17 |17 BadListing BadLine 1 2¶
verify rule=chair seed=42 addr=0: at=1,1,0,0 half=2,1 | 0 0 0,0,0,0¶ | 17 |17 BadListing BadLine 1 3¶
verify rule=chair seed=42 addr=0: at=1,1,0,0 half=2,1 | 0 0 0,0,0,0 ¶ | 17 |17 BadListing BadLine 1 3¶
verify rule=chair seed=42 addr=0: at=1,1,0,0 half=2,1 | 0 0 0,0,0,0  0:¶ | 17 |17 BadListing BadLine 1 3¶
verify rule=chair seed=42 addr=0: at=1,1,0,0 half=2,1 | 0  0 0,0,0,0 0:¶ | 17 |17 BadListing BadLine 1 1¶
verify rule=chair seed=42 addr=0: at=1,1,0,0 half=2,1 |  0 0 0,0,0,0 0:¶ | 17 |17 BadListing BadLine 1 0¶
verify rule=chair seed=42 addr=0: at=1,1,0,0 half=2,1 | 0 0 0,0,0,0 0: ¶ | 17 |17 BadListing BadLine 1 4¶
verify rule=chair seed=42 addr=0: at=1,1,0,0 half=2,1 | 0 0 0,0,0,0 x y¶ | 17 |17 BadListing BadLine 1 4¶
verify rule=chair seed=42 addr=0: at=1,1,0,0 half=2,1 | 256 0 0,0,0,0 0:¶ | 17 |17 BadListing BadLine 1 0¶
verify rule=chair seed=42 addr=0: at=1,1,0,0 half=2,1 | 0 00 0,0,0,0 0:¶ | 17 |17 BadListing BadLine 1 1¶
verify rule=chair seed=42 addr=0: at=1,1,0,0 half=2,1 | 0 0 -0,0,0,0 0:¶ | 17 |17 BadListing BadLine 1 2¶
verify rule=chair seed=42 addr=0: at=1,1,0,0 half=2,1 | 0 0 +1,0,0,0 0:¶ | 17 |17 BadListing BadLine 1 2¶
verify rule=chair seed=42 addr=0: at=1,1,0,0 half=2,1 | 0 0 16777217,0,0,0 0:¶ | 17 |17 BadListing BadLine 1 2¶
verify rule=chair seed=42 addr=0: at=1,1,0,0 half=2,1 | 0 0 0,0,0,-16777217 0:¶ | 17 |17 BadListing BadLine 1 2¶
verify rule=chair seed=42 addr=0: at=1,1,0,0 half=2,1 | 0 0 0,0,0,0,0 0:¶ | 17 |17 BadListing BadLine 1 2¶
verify rule=chair seed=42 addr=0: at=1,1,0,0 half=2,1 | 0 0 0,0,0, 0:¶ | 17 |17 BadListing BadLine 1 2¶
verify rule=chair seed=42 addr=0: at=1,1,0,0 half=2,1 | ␍¶ | 17 |17 BadListing BadLine 1 0¶
verify rule=chair seed=42 addr=0: at=1,1,0,0 half=2,1 | 0 0 0,0,0,0 0:␍¶ | 17 |17 BadListing Address 1 BadText 2¶
verify rule=chair seed=42 addr=0: at=1,1,0,0 half=2,1 | 0 0 0,0,0,0 0:4/0¶ | 17 |17 BadListing Address 1 WrongChild 0¶
verify rule=chair seed=42 addr=0: at=1,1,0,0 half=2,1 | 0 0 0,0,0,0 0:3/0,12/0¶ | 17 |17 BadListing Address 1 WrongChild 1¶
verify rule=chair seed=42 addr=0: at=1,1,0,0 half=2,1 | 1 0 0,0,0,0 0:¶ | 17 |17 BadListing BadKind 1¶
verify rule=chair seed=42 addr=0: at=1,1,0,0 half=2,1 | 0 0 0,0,0,0 0:¶1 0 0,0,0,0 0:¶¶ | 17 |17 BadListing BadKind 2¶
verify rule=chair seed=42 addr=0: at=1,1,0,0 half=2,1 | 0 0 0,0,0,0 0:3/0¶ | 17 |17 BadListing Missing 0:1/0¶
verify rule=chair seed=42 addr=0: at=1,1,0,0 half=2,1 |  | 17 |17 BadListing Missing 0:1/0¶
verify rule=chair seed=42 addr=0: at=1,1,0,0 half=2,1 | 0 0 0,0,0,0 0:3/0¶0 1 3,1,0,0 0:1/0¶0 1 4,0,0,0 0:0/0¶ | 17 |17 BadListing Stray 3¶
verify rule=chair seed=42 addr=0: at=1,1,0,0 half=2,1 | 0 0 0,0,0,0 0:3/0¶0 1 3,1,0,0 0:1/0¶0 0 0,0,0,0 0:3/0¶ | 17 |17 BadListing Double 3¶
verify rule=chair seed=42 addr=0: at=1,1,0,0 half=2,1 | 0 0 0,0,0,0 0:3/0¶0 1 3,1,0,0 0:1/0¶0 0 0,0,0,0 0:¶ | 17 |17 BadListing Double 3¶
verify rule=chair seed=42 addr=0: at=1,1,0,0 half=2,1 | 0 0 0,0,0,0 0:3/0¶0 1 3,2,0,0 0:1/0¶ | 17 |17 BadListing WrongPlace 2 1 3,1,0,0¶
verify rule=chair seed=42 addr=0: at=1,1,0,0 half=2,1 | 0 0 0,0,0,0 0:3/0¶0 1 3,1,7,0 0:1/0¶ | 17 |17 BadListing WrongPlace 2 1 3,1,0,0¶
verify rule=chair seed=42 addr=0: at=1,1,0,0 half=2,1 | 0 0 0,0,0,0 0:3/0¶0 5 3,1,0,0 0:1/0¶ | 17 |17 BadListing WrongPlace 2 1 3,1,0,0¶
verify rule=p3 addr=2: at=0,0,0,0 half=1,1 | 0 0 0,0,0,0 0:¶ | 17 |17 BadListing NotOfFrame 1¶";

/// Listings of the greatest number of lines, all the same, and of one line more.
pub const LONG_LISTINGS: &str = "\
verify rule=chair seed=42 addr=0: at=1,1,0,0 half=2,1 | «0 0 0,0,0,0 0:¶×200000» | 17 |17 BadListing Double 2¶
verify rule=chair seed=42 addr=0: at=1,1,0,0 half=2,1 | «0 0 0,0,0,0 0:¶×200000»x | 17 |17 BadListing TooLong¶";

/// The digits of the chair.
static DIGITS: [&str; 4] = ["0/0,", "1/0,", "2/0,", "3/0,"];

/// What nine digits of a number to the base four count.
static SCALES: [usize; 9] = [65_536, 16_384, 4_096, 1_024, 256, 64, 16, 4, 1];

/// Appends a line of the chair's supertile of depth ten. Its first nine digits count in fours, the last of
/// them fastest.
fn put_counted(listing: &mut String, number: usize) -> Result<(), AllocError> {
    listing.push_str("0 0 0,0,0,0 0:")?;
    for scale in &SCALES {
        listing.push_str(DIGITS[number.checked_div(*scale).unwrap_or(0) % 4])?;
    }
    listing.push_str("0/0\n")
}

/// Returns a listing of the greatest number of lines, of different tiles; only the last line repeats the tile
/// of the first.
fn different_tiles(alloc: Global) -> Result<String, AllocError> {
    let mut listing = String::new(alloc);
    for number in 0..199_999 {
        put_counted(&mut listing, number)?;
    }
    put_counted(&mut listing, 0)?;
    Ok(listing)
}

/// Returns what comes of that listing.
fn told_of_different_tiles(alloc: Global) -> Result<String, NoMemory> {
    let listing = different_tiles(alloc)?.into_bytes();
    let mut source = MemSource::new(listing, 65_536, Vec::new(alloc));
    told_over(alloc, WINDOW, &mut source, &SOUND)
}

/// Returns true if that listing is refused for its last line.
pub fn are_different_tiles_refused(alloc: Global) -> bool {
    match told_of_different_tiles(alloc) {
        Ok(ended) => ended.as_str() == "17 |17 BadListing Double 200000\n",
        Err(_) => false,
    }
}
