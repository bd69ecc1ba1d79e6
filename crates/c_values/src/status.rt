//! The statuses that calls return: the exit codes of the command.

/// The call succeeded.
pub const OK: u8 = 0;

/// An argument of the command is not UTF-8.
pub const NOT_TEXT: u8 = 1;

/// A number is out of range, the lengths of two arrays differ, or a name is unknown.
pub const BAD_WORDS: u8 = 2;

/// The rule file stands for no accepted rule.
pub const RULE_REFUSED: u8 = 3;

/// The address is not that of a tile of the rule.
pub const BAD_ADDRESS: u8 = 4;

/// At depth 64, an edge that must be crossed still lies on the boundary.
pub const DEPTH_LIMIT: u8 = 5;

/// A value has a coefficient above 2^24 in absolute value.
pub const COORD_LIMIT: u8 = 6;

/// More than 200,000 tiles meet the window.
pub const TOO_MANY_TILES: u8 = 7;

/// The edge lies on the boundary of the supertile, or the point is not in the supertile.
pub const OUTSIDE: u8 = 8;

/// Memory ran out.
pub const NO_MEMORY: u8 = 11;

/// The tile does not have this edge.
pub const NO_EDGE: u8 = 12;

/// A line of a script has a fault.
pub const BAD_SCRIPT: u8 = 13;

/// The tile does not have this vertex.
pub const NO_VERTEX: u8 = 15;

/// More than 64 tiles have the vertex.
pub const STAR_TOO_BIG: u8 = 16;

/// The arrays, or the list, are not those of the window.
pub const BAD_LISTING: u8 = 17;
