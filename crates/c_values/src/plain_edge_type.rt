//! Edge types as plain numbers.
ghost use Rattle.std.specs.Prelude.{◌≡◌, ◌≤◌, length};
ghost use Rattle.rule_model.specs.Views.{as_type};
ghost use Rattle.c_values.specs.Rules.{type_as, no_type};

use crate::numbers::put_numbers;
use rule_model::type_row::TypeRow;

/// An edge type.
///
/// - `mate`: the type of the same edge in the opposite direction.
/// - `parts`: the types, in order, into which the inflated edge is cut. There are `count` of them; the
///   numbers after them are 0.
#[repr(C)]
#[derive(Clone, Copy)]
pub struct PlainEdgeType {
    pub mate: u8,
    pub count: u8,
    pub parts: [u8; 8],
}

impl PlainEdgeType {
    /// Makes an edge type with all numbers 0.
    pub fn blank() -> PlainEdgeType
        ensures { result ≡ no_type }
    {
        PlainEdgeType {
            mate: 0,
            count: 0,
            parts: [0; 8],
        }
    }

    /// Returns the numbers of an edge type. It has at most 8 parts.
    pub fn of(row: &TypeRow) -> PlainEdgeType
        requires at_most_8 { length row.now.parts.items ≤ 8 }
        ensures { result ≡ type_as (as_type row.now) }
    {
        let mut parts = [0; 8];
        put_numbers(&row.parts, &mut parts);
        PlainEdgeType {
            mate: row.mate,
            count: row.parts.len() as u8,
            parts,
        }
    }
}
