//! A part, after the test.
use crate::part::Part;

/// A part of a supertile, and the result of testing it.
#[derive(Clone, Copy)]
pub(crate) struct Seen {
    /// The part.
    pub(crate) part: Part,
    /// True if the part was tested for a point and holds it.
    pub(crate) holds: bool,
}
