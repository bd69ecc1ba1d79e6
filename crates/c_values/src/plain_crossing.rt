//! Crossings of many edges, as plain numbers.

/// What a crossing of an edge returns, in an array.
///
/// - `status` is its status.
/// - `back` is the edge that leads back, or the edge of the supertile on which the edge lies.
/// - `part` is the part of that edge of the supertile.
///
/// `back` and `part` are 0 if the status leaves them without a meaning.
#[repr(C)]
#[derive(Clone, Copy)]
pub struct PlainCrossing {
    pub status: u8,
    pub back: u8,
    pub part: u8,
}
