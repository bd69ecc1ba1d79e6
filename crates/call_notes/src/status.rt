//! How a call of the engine ended.
ghost use Rattle.std.specs.Prelude.{◌≡◌};
ghost use Rattle.call_notes.specs.Status.{code_of};

use crate::rule_fault::RuleFault;
use crate::script_fault::ScriptFault;
use cyclo_points::point::Point;
use layer_api::format::Format;
use list_verify::list_fault::ListFault;
use tile_shape::address::Address;
use tile_shape::address_fault::AddressFault;

/// How a call of `run` ended.
#[derive(Debug, Drop, PartialEq, Eq)]
pub enum Status {
    /// The sink took the whole text.
    Done,
    /// The arguments are not right. This is the position of the first wrong argument, counted from 0, or the
    /// number of arguments if a required key is missing.
    BadWords { place: usize },
    /// No layer has this format, which is the first such format that the arguments name.
    NoLayer { format: Format },
    /// A call of the source failed.
    ReadFault,
    /// The rule file has more than 1,048,576 bytes.
    RuleTooLong,
    /// The rule file does not stand for a rule, or its rule is not accepted. This is its first fault.
    RuleRefused { fault: RuleFault },
    /// The text of the address is refused.
    BadAddress { fault: AddressFault },
    /// The tile has no edge with the first number. The second number is how many edges it has.
    NoEdge { edge: u8, edges: u8 },
    /// The tile has no vertex with the first number. The second number is how many vertices it has, which is
    /// its number of edges.
    NoVertex { vertex: u8, edges: u8 },
    /// The edge lies on this edge of the supertile, in this part of it.
    Outside { edge: u8, part: u8 },
    /// This edge of this tile is on the boundary of the frame at depth 64. It is on a walk, it meets a
    /// window, it is the glue edge of a tile of a window, or it ends at a vertex.
    DepthLimit { addr: Address, edge: u8 },
    /// This value has a coefficient above 2^24 in absolute value. For a tile, it is the first such value,
    /// from coarse to fine. For a window, it is a value on the way to the centre, or the shift of a tile that
    /// meets the window or of its other half.
    CoordLimit { value: Point },
    /// More than 200,000 tiles meet the window.
    TooManyTiles,
    /// More than 64 tiles have the vertex.
    StarTooBig,
    /// The script is too long, or a line of it has a fault. This is the first line that has one, with its
    /// first fault.
    BadScript { fault: ScriptFault },
    /// The list is not that of the window. It is too long, has a bad line, or has an address that is not of
    /// the frame or is repeated. Or it omits a tile, has one with another motion, or has one that does not
    /// meet the window.
    BadListing { fault: ListFault },
    /// The sink failed. It took a part of the text, from its start, and not the whole.
    WriteFault,
    /// Memory ran out, or a layer refused a tile.
    NoMemory,
}

impl Status {
    /// Returns the exit code of the program.
    pub fn code(&self) -> u8
        ensures { result ≡ code_of self.now }
    {
        match self {
            Status::Done => 0,
            Status::BadWords { .. } => 2,
            Status::RuleTooLong | Status::RuleRefused { .. } => 3,
            Status::BadAddress { .. } => 4,
            Status::DepthLimit { .. } => 5,
            Status::CoordLimit { .. } => 6,
            Status::TooManyTiles => 7,
            Status::Outside { .. } => 8,
            Status::ReadFault => 9,
            Status::WriteFault => 10,
            Status::NoMemory => 11,
            Status::NoEdge { .. } => 12,
            Status::BadScript { .. } => 13,
            Status::NoLayer { .. } => 14,
            Status::NoVertex { .. } => 15,
            Status::StarTooBig => 16,
            Status::BadListing { .. } => 17,
        }
    }
}
