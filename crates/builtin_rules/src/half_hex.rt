//! The half-hex: half of a regular hexagon, cut into four half-hexes.
use crate::kind_numbers::KindNumbers;
use crate::notation::{child, edge_type, inner, outer, part, point};
use crate::rule_numbers::RuleNumbers;
use cyclo_points::order::Order;
use rule_model::edition::Edition;

/// The rule. ζ is a sixth of a turn. The only edge type has length 1 and is its own mate. No halves are
/// glued.
pub(crate) const NUMBERS: RuleNumbers = RuleNumbers {
    edition: Edition::Two,
    order: Order::Six,
    factor: point!(2, 0, 0, 0),
    glue: &[],
    types: &[edge_type!(0, [0, 0])],
    kinds: &[
        // A trapezoid, starting at the middle of its long side, which is two edges.
        KindNumbers {
            vertices: &[
                point!(1, 0, 0, 0),
                point!(2, 0, 0, 0),
                point!(1, 1, 0, 0),
                point!(0, 1, 0, 0),
                point!(0, 0, 0, 0),
            ],
            edges: &[0, 0, 0, 0, 0],
            children: &[
                child!(0, 0, [1, 0, 0, 0]), // on the middle of the long side
                child!(0, 2, [4, 0, 0, 0]), // along the right leg
                child!(0, 3, [2, 2, 0, 0]), // along the short side
                child!(0, 4, [0, 2, 0, 0]), // along the left leg
            ],
            contacts: &[
                &[
                    outer!(0, 0),
                    inner!(1, 2),
                    inner!(2, 2),
                    inner!(3, 2),
                    outer!(4, 1),
                ],
                &[
                    outer!(1, 1),
                    inner!(2, 3),
                    inner!(0, 1),
                    outer!(0, 1),
                    outer!(1, 0),
                ],
                &[
                    outer!(2, 1),
                    inner!(3, 3),
                    inner!(0, 2),
                    inner!(1, 1),
                    outer!(2, 0),
                ],
                &[
                    outer!(3, 1),
                    outer!(4, 0),
                    inner!(0, 3),
                    inner!(2, 1),
                    outer!(3, 0),
                ],
            ],
            parts: &[
                &[part!(0, 0), part!(1, 3)],
                &[part!(1, 4), part!(1, 0)],
                &[part!(2, 4), part!(2, 0)],
                &[part!(3, 4), part!(3, 0)],
                &[part!(3, 1), part!(0, 4)],
            ],
        },
    ],
};
