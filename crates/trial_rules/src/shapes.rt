//! Rules of the literature, as texts.
//!
//! A text has an order, a factor, the glue types, the edge types and the kinds, parted by semicolons. An edge
//! type is its mate and its parts. A kind is its vertices, the types of its edges, and its children. A child
//! is its kind, its turn and its shift.

/// The chair: an L of three squares, cut into four of itself.
pub const CHAIR: &str = "4; 2,0,0,0; ; 0:0,0; \
    1,1,0,0 1,2,0,0 0,2,0,0 0,1,0,0 0,0,0,0 1,0,0,0 2,0,0,0 2,1,0,0 | 0,0,0,0,0,0,0,0 | 0.0@0,0,0,0 0.0@1,1,0,0 0.1@4,0,0,0 0.3@0,4,0,0";

/// A square cut into four.
pub const SQUARE: &str = "4; 2,0,0,0; ; 0:0,0; \
    0,0,0,0 1,0,0,0 1,1,0,0 0,1,0,0 | 0,0,0,0 | 0.0@0,0,0,0 0.0@1,0,0,0 0.0@1,1,0,0 0.0@0,1,0,0";

/// The same square with an edge type for each of its edges: those of opposite edges are mates.
pub const TYPED_SQUARE: &str = "4; 2,0,0,0; ; 2:0,0 3:1,1 0:2,2 1:3,3; \
    0,0,0,0 1,0,0,0 1,1,0,0 0,1,0,0 | 0,1,2,3 | 0.0@0,0,0,0 0.0@1,0,0,0 0.0@1,1,0,0 0.0@0,1,0,0";

/// The table tiling: a domino cut into four, two across between two upright ones. Its six vertices
/// begin at the middle of a long side, from which all of it is seen.
pub const TABLE: &str = "4; 2,0,0,0; ; 0:0,0; \
    0,0,0,0 1,0,0,0 1,1,0,0 0,1,0,0 -1,1,0,0 -1,0,0,0 | 0,0,0,0,0,0 | 0.0@0,0,0,0 0.0@0,1,0,0 0.1@2,1,0,0 0.1@-1,1,0,0";

/// The isosceles right triangle, inflated by √2 and cut into two by its height: a leg grows to a
/// hypotenuse, and the hypotenuse to two legs.
pub const RIGHT_TRIANGLE: &str = "8; 0,1,0,-1; ; 0:1 1:0,0; \
    0,0,0,0 1,0,0,0 0,0,1,0 | 0,1,0 | 0.3@0,1,0,0 0.5@0,1,0,0";

/// P3 by half rhombs: kinds 0 and 1 are halves of the thin rhomb, 2 and 3 of the thick one. After each of the
/// types u, v, w and x comes its mate. Halves are glued along w and along x.
pub const HALF_RHOMBS: &str = "10; 1,0,1,-1; 4,6; 1:3,4 0:5,2 3:7 2:6 5:3 4:2 7:7,1 6:0,6; \
    0,0,0,0 1,0,0,0 0,1,0,0 | 0,4,3 | 0.7@1,0,1,0 2.2@1,0,0,0; \
    0,0,0,0 1,0,0,0 0,1,0,0 | 2,5,1 | 1.3@1,0,1,-1 3.6@0,1,0,0; \
    0,0,0,0 1,0,0,0 0,0,0,1 | 1,6,3 | 2.4@0,0,1,0 3.0@0,0,1,-1 1.7@0,0,1,0; \
    0,0,0,0 1,0,0,0 0,0,0,1 | 2,7,0 | 3.6@0,1,0,0 2.0@-1,1,0,0 0.5@0,1,0,0";

/// P2 by half kites and half darts: kinds 0 and 1 are halves of the kite, 2 and 3 of the dart. After each of
/// the types a, b, c and f comes its mate. Halves are glued along c and along f.
pub const HALF_KITES: &str = "10; 1,0,1,-1; 4,6; 1:7,1 0:0,6 3:0 2:1 5:1,3 4:2,0 7:5 6:4; \
    0,0,0,0 1,0,1,-1 1,0,1,0 | 0,2,5 | 2.2@1,0,0,0 1.4@2,0,1,-1 0.3@2,0,1,-1; \
    0,0,0,0 1,0,1,-1 1,0,1,0 | 4,3,1 | 3.6@0,1,0,0 0.6@1,1,1,0 1.7@1,1,1,0; \
    0,0,0,0 1,0,0,0 0,0,0,1 | 2,0,7 | 2.6@0,1,0,0 1.8@-1,1,0,1; \
    0,0,0,0 1,0,0,0 0,0,0,1 | 6,1,3 | 3.4@0,0,1,0 0.4@1,0,1,-1";

/// Ammann-Beenker: kind 0 is the rhomb, and kinds 1 and 2 are halves of the square. After each of the types s
/// and h comes its mate. Halves are glued along h.
pub const HALF_SQUARES: &str = "8; 1,1,0,-1; 2; 1:0,2 0:3,1 3:0,3,1 2:0,2,1; \
    0,0,0,0 1,0,0,0 1,1,0,0 0,1,0,0 | 0,1,0,1 | 0.0@0,0,0,0 1.0@1,0,0,0 2.5@2,1,1,-1 0.4@2,2,1,-1 1.4@1,2,1,-1 2.1@0,1,0,0 0.2@1,1,0,-1; \
    0,0,0,0 0,1,0,-1 0,1,0,0 | 2,0,0 | 1.3@2,1,0,0 1.5@1,0,1,0 2.4@1,1,0,-1 0.3@2,1,0,-1 0.1@1,0,0,0; \
    0,0,0,0 0,0,0,-1 0,1,0,-1 | 1,1,3 | 2.5@2,0,0,-1 2.3@1,0,-1,0 1.4@1,1,0,-1 0.4@2,1,0,-1 0.6@1,0,0,0";

/// The half square, inflated by 1 + i, which turns it by an eighth of a turn, and cut into two by its height.
/// A leg grows to a hypotenuse, and the hypotenuse to two legs.
pub const BISECTED: &str = "4; 1,1,0,0; ; 0:1 1:0,0; \
    0,0,0,0 1,0,0,0 0,1,0,0 | 0,1,0 | 0.3@0,1,0,0 0.2@0,1,0,0";

/// The half-hex: half of a regular hexagon, cut into four of itself.
pub const HALF_HEX: &str = "6; 2,0,0,0; ; 0:0,0; \
    1,0,0,0 2,0,0,0 1,1,0,0 0,1,0,0 0,0,0,0 | 0,0,0,0,0 | 0.0@1,0,0,0 0.2@4,0,0,0 0.3@2,2,0,0 0.4@0,2,0,0";

/// A square inflated by -2, so turned by half a turn, and cut into four.
pub const TURNED_SQUARE: &str = "4; -2,0,0,0; ; 0:0,0; \
    0,0,0,0 1,0,0,0 1,1,0,0 0,1,0,0 | 0,0,0,0 | 0.2@0,0,0,0 0.2@-1,0,0,0 0.2@-1,-1,0,0 0.2@0,-1,0,0";
