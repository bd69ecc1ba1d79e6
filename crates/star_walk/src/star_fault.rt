//! Why a vertex has no star.
use lazy_walk::depth_limit::DepthLimit;
use tile_shape::address::Address;

/// Why the tiles around a vertex are not found.
#[derive(Debug, Drop, PartialEq, Eq)]
pub enum StarFault {
    /// A tile that has the vertex has its edge that ends there on the boundary at depth 64.
    DepthLimit {
        /// The tile's address, lifted to that depth.
        addr: Address,
        /// The number of the edge.
        edge: u8,
    },
    /// More than 64 tiles have the vertex.
    TooBig,
}

impl From<DepthLimit> for StarFault {
    ghost use Rattle.std.specs.Prelude.{◌≡◌};
    ghost use Rattle.star_walk.specs.declared.star_fault.StarFault.TheVariants.{DepthLimit};

    ghost from_gives = { λ limit fault. fault ≡ DepthLimit limit.addr limit.edge };

    fn from(limit: DepthLimit) -> StarFault {
        StarFault::DepthLimit {
            addr: limit.addr,
            edge: limit.edge,
        }
    }
}
