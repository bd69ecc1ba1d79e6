//! The chair: an L of three unit squares, with two outer sides of length 2, cut into four chairs.
use crate::kind_numbers::KindNumbers;
use crate::notation::{child, edge_type, inner, outer, part, point};
use crate::rule_numbers::RuleNumbers;
use cyclo_points::order::Order;
use rule_model::edition::Edition;

/// The rule. ζ is a quarter turn. The only edge type has length 1 and is its own mate. No halves are glued.
pub(crate) const NUMBERS: RuleNumbers = RuleNumbers {
    edition: Edition::One,
    order: Order::Four,
    factor: point!(2, 0, 0, 0),
    glue: &[],
    types: &[edge_type!(0, [0, 0])],
    kinds: &[
        // The L, starting at its inner corner.
        KindNumbers {
            vertices: &[
                point!(1, 1, 0, 0),
                point!(1, 2, 0, 0),
                point!(0, 2, 0, 0),
                point!(0, 1, 0, 0),
                point!(0, 0, 0, 0),
                point!(1, 0, 0, 0),
                point!(2, 0, 0, 0),
                point!(2, 1, 0, 0),
            ],
            edges: &[0, 0, 0, 0, 0, 0, 0, 0],
            children: &[
                child!(0, 0, [0, 0, 0, 0]), // an L in the corner
                child!(0, 0, [1, 1, 0, 0]), // an L in the middle
                child!(0, 1, [4, 0, 0, 0]), // an L at the end of the right leg
                child!(0, 3, [0, 4, 0, 0]), // an L at the end of the upper leg
            ],
            contacts: &[
                &[
                    inner!(1, 3),
                    inner!(3, 6),
                    outer!(3, 0),
                    outer!(3, 1),
                    outer!(4, 0),
                    outer!(4, 1),
                    inner!(2, 1),
                    inner!(1, 4),
                ],
                &[
                    outer!(0, 0),
                    inner!(3, 0),
                    inner!(3, 7),
                    inner!(0, 0),
                    inner!(0, 7),
                    inner!(2, 0),
                    inner!(2, 7),
                    outer!(7, 1),
                ],
                &[
                    inner!(1, 5),
                    inner!(0, 6),
                    outer!(5, 0),
                    outer!(5, 1),
                    outer!(6, 0),
                    outer!(6, 1),
                    outer!(7, 0),
                    inner!(1, 6),
                ],
                &[
                    inner!(1, 1),
                    outer!(0, 1),
                    outer!(1, 0),
                    outer!(1, 1),
                    outer!(2, 0),
                    outer!(2, 1),
                    inner!(0, 1),
                    inner!(1, 2),
                ],
            ],
            parts: &[
                &[part!(1, 0), part!(3, 1)],
                &[part!(3, 2), part!(3, 3)],
                &[part!(3, 4), part!(3, 5)],
                &[part!(0, 2), part!(0, 3)],
                &[part!(0, 4), part!(0, 5)],
                &[part!(2, 2), part!(2, 3)],
                &[part!(2, 4), part!(2, 5)],
                &[part!(2, 6), part!(1, 7)],
            ],
        },
    ],
};
