//! Corners as plain numbers.
ghost use Rattle.std.specs.Prelude.{◌≡◌, ◌≤◌, length, []};
ghost use Rattle.c_values.specs.Outlines.{HoldsOutline};
ghost use Rattle.c_values.specs.Rules.{outline_as};

use crate::plain_point::PlainPoint;
use cyclo_points::point::Point;

/// The corners of a tile, counterclockwise. There are `count` of them, one for each edge: edge i runs from
/// corner i to the next. Entries after them are unchanged.
#[repr(C)]
#[derive(Clone, Copy)]
pub struct PlainOutline {
    pub corners: [PlainPoint; 12],
    pub count: u8,
}

impl PlainOutline {
    /// Makes an outline with all numbers 0.
    pub fn blank() -> PlainOutline
        ensures { result ≡ outline_as [] }
    {
        PlainOutline {
            corners: [PlainPoint { c: [0; 4] }; 12],
            count: 0,
        }
    }

    /// Replaces the corners by these points. There is room for 12.
    pub fn write(&mut self, points: &[Point])
        requires at_most_12 { length points.now ≤ 12 }
        ensures { HoldsOutline points.now self.old self.new }
    {
        self.count = points.len() as u8;
        for i in 0..points.len() {
            self.corners[i] = PlainPoint { c: points[i].c };
        }
    }
}
