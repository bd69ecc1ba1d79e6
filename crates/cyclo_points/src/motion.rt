//! A motion, by its turn and its shift.
use crate::point::Point;
use std::fmt;

/// The motion z ↦ ζ^turn z + shift. In order n, `turn` is below n. Motions are ordered by turn, then by
/// shift. A motion is printed as its turn and its shift, with a blank between.
#[derive(Clone, Copy, Debug, Default, PartialEq, Eq, PartialOrd, Ord)]
pub struct Motion {
    pub turn: u8,
    pub shift: Point,
}

impl fmt::Display for Motion {
    ghost use Rattle.std.specs.Prelude.{Some};
    ghost use Rattle.cyclo_points.specs.Text.{motion_text};

    ghost output = { λ m. Some (motion_text m) };

    fn fmt<W: fmt::Write>(&self, f: &mut fmt::Formatter<W>) -> fmt::Result {
        let turn = self.turn;
        let shift = self.shift;
        write!(f, "{turn} {shift}")
    }
}
