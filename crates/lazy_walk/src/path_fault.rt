//! Why a path cannot be walked to its end.
use crate::depth_limit::DepthLimit;

/// Why a path ends before its last edge.
#[derive(Debug, Drop, PartialEq, Eq)]
pub enum PathFault {
    /// The tile reached does not have the next edge of the path, `edge`. It has only `edges` edges.
    NoEdge { edge: u8, edges: u8 },
    /// The next edge is on the boundary at depth 64.
    DepthLimit(DepthLimit),
}
