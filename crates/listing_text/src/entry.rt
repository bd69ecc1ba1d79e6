//! A line of a listing.
use cyclo_points::motion::Motion;
use tile_shape::address::Address;

/// A tile of a list, and the motion that is listed for it. Its kind is that of the address, which a line also
/// has as its first field.
#[derive(Debug, Drop, PartialEq, Eq)]
pub struct Entry {
    /// The turn and the shift as they are listed. The turn may be any number up to 255, and the shift any
    /// four numbers.
    pub motion: Motion,
    /// The address, which fits the table of uses.
    pub address: Address,
}
