//! Penrose's rhombs, each cut into two halves: the thin one along its short diagonal, the thick one along its
//! long diagonal. The halves are Robinson's triangles.
use crate::kind_numbers::KindNumbers;
use crate::notation::{child, edge_type, inner, outer, part, point};
use crate::rule_numbers::RuleNumbers;
use cyclo_points::order::Order;
use rule_model::edition::Edition;

/// The rule. ζ is a tenth of a turn, and the factor is φ. The edge types, each followed by its mate:
///
/// - u and v: sides, of length 1.
/// - w: the short diagonal of the thin rhomb, of length 1/φ.
/// - x: the long diagonal of the thick rhomb, of length φ.
///
/// Halves are glued along w and x.
pub(crate) const NUMBERS: RuleNumbers = RuleNumbers {
    edition: Edition::One,
    order: Order::Ten,
    factor: point!(1, 0, 1, -1),
    glue: &[4, 6],
    types: &[
        edge_type!(1, [3, 4]), // u
        edge_type!(0, [5, 2]),
        edge_type!(3, [7]), // v
        edge_type!(2, [6]),
        edge_type!(5, [3]), // w
        edge_type!(4, [2]),
        edge_type!(7, [7, 1]), // x
        edge_type!(6, [0, 6]),
    ],
    kinds: &[
        // Half of the thin rhomb, with edges u, w and the mate of v.
        KindNumbers {
            vertices: &[point!(0, 0, 0, 0), point!(1, 0, 0, 0), point!(0, 1, 0, 0)],
            edges: &[0, 4, 3],
            children: &[
                child!(0, 7, [1, 0, 1, 0]), // thin
                child!(2, 2, [1, 0, 0, 0]), // thick
            ],
            contacts: &[
                &[inner!(1, 0), outer!(0, 1), outer!(1, 0)],
                &[inner!(0, 0), outer!(2, 0), outer!(0, 0)],
            ],
            parts: &[&[part!(1, 2), part!(0, 1)], &[part!(0, 2)], &[part!(1, 1)]],
        },
        // Its mirror image.
        KindNumbers {
            vertices: &[point!(0, 0, 0, 0), point!(1, 0, 0, 0), point!(0, 1, 0, 0)],
            edges: &[2, 5, 1],
            children: &[
                child!(1, 3, [1, 0, 1, -1]), // thin, mirrored
                child!(3, 6, [0, 1, 0, 0]), // thick, mirrored
            ],
            contacts: &[
                &[outer!(1, 0), outer!(2, 0), inner!(1, 2)],
                &[outer!(2, 1), outer!(0, 0), inner!(0, 2)],
            ],
            parts: &[&[part!(1, 1)], &[part!(0, 0)], &[part!(0, 1), part!(1, 0)]],
        },
        // Half of the thick rhomb, with edges the mate of u, x, and the mate of v.
        KindNumbers {
            vertices: &[point!(0, 0, 0, 0), point!(1, 0, 0, 0), point!(0, 0, 0, 1)],
            edges: &[1, 6, 3],
            children: &[
                child!(2, 4, [0, 0, 1, 0]), // thick
                child!(3, 0, [0, 0, 1, -1]), // thick, mirrored
                child!(1, 7, [0, 0, 1, 0]), // thin, mirrored
            ],
            contacts: &[
                &[outer!(1, 1), outer!(2, 0), inner!(2, 0)],
                &[outer!(0, 1), outer!(1, 0), inner!(2, 2)],
                &[inner!(0, 2), outer!(0, 0), inner!(1, 2)],
            ],
            parts: &[
                &[part!(2, 1), part!(1, 0)],
                &[part!(1, 1), part!(0, 0)],
                &[part!(0, 1)],
            ],
        },
        // Its mirror image.
        KindNumbers {
            vertices: &[point!(0, 0, 0, 0), point!(1, 0, 0, 0), point!(0, 0, 0, 1)],
            edges: &[2, 7, 0],
            children: &[
                child!(3, 6, [0, 1, 0, 0]), // thick, mirrored
                child!(2, 0, [-1, 1, 0, 0]), // thick
                child!(0, 5, [0, 1, 0, 0]), // thin
            ],
            contacts: &[
                &[inner!(2, 2), outer!(0, 0), outer!(1, 0)],
                &[inner!(2, 0), outer!(1, 1), outer!(2, 0)],
                &[inner!(1, 0), outer!(2, 1), inner!(0, 0)],
            ],
            parts: &[
                &[part!(0, 1)],
                &[part!(0, 2), part!(1, 1)],
                &[part!(1, 2), part!(2, 1)],
            ],
        },
    ],
};
