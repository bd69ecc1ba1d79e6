//! The rhombs and squares of Ammann and Beenker, with each square cut into two halves along a diagonal.
use crate::kind_numbers::KindNumbers;
use crate::notation::{child, edge_type, inner, outer, part, point};
use crate::rule_numbers::RuleNumbers;
use cyclo_points::order::Order;
use rule_model::edition::Edition;

/// The rule. ζ is an eighth of a turn, and the factor is 1 + √2. The edge types are the side s, of length 1,
/// and the square's diagonal h, of length √2. Halves are glued along h. Each type is followed by its mate.
pub(crate) const NUMBERS: RuleNumbers = RuleNumbers {
    edition: Edition::One,
    order: Order::Eight,
    factor: point!(1, 1, 0, -1),
    glue: &[2],
    types: &[
        edge_type!(1, [0, 2]), // s
        edge_type!(0, [3, 1]),
        edge_type!(3, [0, 3, 1]), // h
        edge_type!(2, [0, 2, 1]),
    ],
    kinds: &[
        // The rhomb. Its edges are s and its mate, twice.
        KindNumbers {
            vertices: &[
                point!(0, 0, 0, 0),
                point!(1, 0, 0, 0),
                point!(1, 1, 0, 0),
                point!(0, 1, 0, 0),
            ],
            edges: &[0, 1, 0, 1],
            children: &[
                child!(0, 0, [0, 0, 0, 0]), // rhomb
                child!(1, 0, [1, 0, 0, 0]), // half square
                child!(2, 5, [2, 1, 1, -1]), // half square, mirrored
                child!(0, 4, [2, 2, 1, -1]), // rhomb
                child!(1, 4, [1, 2, 1, -1]), // half square
                child!(2, 1, [0, 1, 0, 0]), // half square, mirrored
                child!(0, 2, [1, 1, 0, -1]), // rhomb
            ],
            contacts: &[
                &[outer!(0, 0), inner!(1, 2), inner!(5, 0), outer!(3, 1)],
                &[outer!(0, 1), inner!(6, 3), inner!(0, 1)],
                &[inner!(3, 2), inner!(6, 0), outer!(1, 0)],
                &[outer!(2, 0), inner!(4, 2), inner!(2, 0), outer!(1, 1)],
                &[outer!(2, 1), inner!(6, 1), inner!(3, 1)],
                &[inner!(0, 2), inner!(6, 2), outer!(3, 0)],
                &[inner!(2, 1), inner!(4, 1), inner!(5, 1), inner!(1, 1)],
            ],
            parts: &[
                &[part!(0, 0), part!(1, 0)],
                &[part!(2, 2), part!(3, 3)],
                &[part!(3, 0), part!(4, 0)],
                &[part!(5, 2), part!(0, 3)],
            ],
        },
        // Half of the square, with edges h, s, s and vertices 0, √2 and ζ.
        KindNumbers {
            vertices: &[point!(0, 0, 0, 0), point!(0, 1, 0, -1), point!(0, 1, 0, 0)],
            edges: &[2, 0, 0],
            children: &[
                child!(1, 3, [2, 1, 0, 0]), // half square
                child!(1, 5, [1, 0, 1, 0]), // half square
                child!(2, 4, [1, 1, 0, -1]), // half square, mirrored
                child!(0, 3, [2, 1, 0, -1]), // rhomb
                child!(0, 1, [1, 0, 0, 0]), // rhomb
            ],
            contacts: &[
                &[outer!(1, 1), inner!(4, 1), inner!(3, 1)],
                &[outer!(2, 1), outer!(0, 0), inner!(4, 3)],
                &[inner!(3, 2), inner!(4, 0), outer!(0, 1)],
                &[outer!(1, 0), inner!(0, 2), inner!(2, 0), outer!(0, 2)],
                &[inner!(2, 1), inner!(0, 1), outer!(2, 0), inner!(1, 2)],
            ],
            parts: &[
                &[part!(1, 1), part!(2, 2), part!(3, 3)],
                &[part!(3, 0), part!(0, 0)],
                &[part!(4, 2), part!(1, 0)],
            ],
        },
        // Its mirror image, with vertices 0, -ζ³ and √2.
        KindNumbers {
            vertices: &[point!(0, 0, 0, 0), point!(0, 0, 0, -1), point!(0, 1, 0, -1)],
            edges: &[1, 1, 3],
            children: &[
                child!(2, 5, [2, 0, 0, -1]), // half square, mirrored
                child!(2, 3, [1, 0, -1, 0]), // half square, mirrored
                child!(1, 4, [1, 1, 0, -1]), // half square
                child!(0, 4, [2, 1, 0, -1]), // rhomb
                child!(0, 6, [1, 0, 0, 0]), // rhomb
            ],
            contacts: &[
                &[inner!(3, 2), inner!(4, 2), outer!(1, 0)],
                &[inner!(4, 0), outer!(2, 2), outer!(0, 0)],
                &[outer!(2, 1), inner!(4, 3), inner!(3, 1)],
                &[outer!(2, 0), inner!(2, 2), inner!(0, 0), outer!(1, 1)],
                &[inner!(1, 0), outer!(0, 1), inner!(0, 1), inner!(2, 1)],
            ],
            parts: &[
                &[part!(1, 2), part!(4, 1)],
                &[part!(0, 2), part!(3, 3)],
                &[part!(3, 0), part!(2, 0), part!(1, 1)],
            ],
        },
    ],
};
