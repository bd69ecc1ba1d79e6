//! Penrose's kites and darts, each cut into two halves along its axis. The halves are Robinson's triangles.
use crate::kind_numbers::KindNumbers;
use crate::notation::{child, edge_type, inner, outer, part, point};
use crate::rule_numbers::RuleNumbers;
use cyclo_points::order::Order;
use rule_model::edition::Edition;

/// The rule. ζ is a tenth of a turn, and the factor is φ. The edge types, each followed by its mate:
///
/// - a: the long side, of length φ.
/// - b: the short side, of length 1.
/// - c: the axis of the kite, of length φ.
/// - f: the axis of the dart, of length 1.
///
/// Halves are glued along c and f.
pub(crate) const NUMBERS: RuleNumbers = RuleNumbers {
    edition: Edition::One,
    order: Order::Ten,
    factor: point!(1, 0, 1, -1),
    glue: &[4, 6],
    types: &[
        edge_type!(1, [7, 1]), // a
        edge_type!(0, [0, 6]),
        edge_type!(3, [0]), // b
        edge_type!(2, [1]),
        edge_type!(5, [1, 3]), // c
        edge_type!(4, [2, 0]),
        edge_type!(7, [5]), // f
        edge_type!(6, [4]),
    ],
    kinds: &[
        // Half of the kite, with edges a, b and the mate of c. Its vertices are 0, φ and φ ζ.
        KindNumbers {
            vertices: &[point!(0, 0, 0, 0), point!(1, 0, 1, -1), point!(1, 0, 1, 0)],
            edges: &[0, 2, 5],
            children: &[
                child!(2, 2, [1, 0, 0, 0]), // half dart
                child!(1, 4, [2, 0, 1, -1]), // half kite, mirrored
                child!(0, 3, [2, 0, 1, -1]), // half kite
            ],
            contacts: &[
                &[inner!(1, 1), outer!(2, 1), outer!(0, 0)],
                &[inner!(2, 2), inner!(0, 0), outer!(0, 1)],
                &[outer!(1, 0), outer!(2, 0), inner!(1, 0)],
            ],
            parts: &[
                &[part!(0, 2), part!(1, 2)],
                &[part!(2, 0)],
                &[part!(2, 1), part!(0, 1)],
            ],
        },
        // Its mirror image.
        KindNumbers {
            vertices: &[point!(0, 0, 0, 0), point!(1, 0, 1, -1), point!(1, 0, 1, 0)],
            edges: &[4, 3, 1],
            children: &[
                child!(3, 6, [0, 1, 0, 0]), // half dart, mirrored
                child!(0, 6, [1, 1, 1, 0]), // half kite
                child!(1, 7, [1, 1, 1, 0]), // half kite, mirrored
            ],
            contacts: &[
                &[outer!(2, 1), outer!(0, 0), inner!(1, 1)],
                &[outer!(2, 0), inner!(0, 2), inner!(2, 0)],
                &[inner!(1, 2), outer!(0, 1), outer!(1, 0)],
            ],
            parts: &[
                &[part!(0, 1), part!(2, 1)],
                &[part!(2, 2)],
                &[part!(1, 0), part!(0, 0)],
            ],
        },
        // Half of the dart, with edges b, a and the mate of f. Its vertices are 0, 1 and ζ³.
        KindNumbers {
            vertices: &[point!(0, 0, 0, 0), point!(1, 0, 0, 0), point!(0, 0, 0, 1)],
            edges: &[2, 0, 7],
            children: &[
                child!(2, 6, [0, 1, 0, 0]), // half dart
                child!(1, 8, [-1, 1, 0, 1]), // half kite, mirrored
            ],
            contacts: &[
                &[inner!(1, 1), outer!(0, 0), outer!(1, 0)],
                &[outer!(2, 0), inner!(0, 0), outer!(1, 1)],
            ],
            parts: &[&[part!(0, 1)], &[part!(0, 2), part!(1, 2)], &[part!(1, 0)]],
        },
        // Its mirror image.
        KindNumbers {
            vertices: &[point!(0, 0, 0, 0), point!(1, 0, 0, 0), point!(0, 0, 0, 1)],
            edges: &[6, 1, 3],
            children: &[
                child!(3, 4, [0, 0, 1, 0]), // half dart, mirrored
                child!(0, 4, [1, 0, 1, -1]), // half kite
            ],
            contacts: &[
                &[outer!(1, 1), outer!(2, 0), inner!(1, 1)],
                &[outer!(1, 0), inner!(0, 2), outer!(0, 0)],
            ],
            parts: &[&[part!(1, 2)], &[part!(1, 0), part!(0, 0)], &[part!(0, 1)]],
        },
    ],
};
