//! The bounds of supertiles, each made once.
ghost use Rattle.std.specs.Prelude.{◌≡◌, ◌<◌, ◌^◌, length, IfSome};
ghost use Rattle.cyclo_points.specs.Order.{points_of};
ghost use Rattle.cyclo_points.specs.Point.{IsWithin};
ghost use Rattle.rule_model.specs.Views.{rule_of};
ghost use Rattle.window_descent.specs.Bounds.{AreBounds};
ghost use Rattle.window_descent.specs.Rows.{AreRows, HasRow, HasBounds, IsRowOf};

use crate::bounds::Bounds;
use crate::row_key::RowKey;
use crate::rows::Rows;
use cyclo_points::motion::Motion;
use cyclo_points::point::Point;
use tile_place::machine::Machine;

impl Rows {
    /// Returns the bounds of a supertile that is turned and not shifted, and makes them first if needed.
    /// Returns None if X or Y of a vertex is long.
    pub(crate) fn bounds(&mut self, machine: &Machine, row: RowKey) -> Option<Bounds>
        requires rows { AreRows machine.now self.old }
        requires row { HasRow machine.now self.old row }
        ensures rows { AreRows machine.now self.new }
        ensures same_powers { self.new.powers.items ≡ self.old.powers.items }
        ensures bounds { IfSome result (HasBounds machine.now self.old row) }
    {
        let _usable = machine.checked();
        match self.bounds[row.place()] {
            Some(bounds) => Some(bounds),
            None => self.make_bounds(machine, row),
        }
    }

    /// Makes the bounds of a level, a kind and a turn.
    #[cold]
    #[inline(never)]
    fn make_bounds(&mut self, machine: &Machine, row: RowKey) -> Option<Bounds>
        requires rows { AreRows machine.now self.old }
        requires row { HasRow machine.now self.old row }
        ensures rows { AreRows machine.now self.new }
        ensures same_powers { self.new.powers.items ≡ self.old.powers.items }
        ensures bounds { IfSome result (HasBounds machine.now self.old row) }
    {
        let made = bounds_of(machine, &self.powers.as_slice()[row.level as usize], row);
        let _usable = machine.checked();
        self.bounds[row.place()] = made;
        made
    }
}

/// Returns the bounds of a scaled prototile that is turned and not shifted, or None if X or Y of a vertex is
/// long.
fn bounds_of(machine: &Machine, scale: &Point, row: RowKey) -> Option<Bounds>
    requires row { IsRowOf machine.now row }
    requires scale_within { IsWithin (2 ^ 24) scale.now }
    ensures { IfSome result (AreBounds machine.now scale.now row.kind row.turn) }
{
    let at = Motion {
        turn: row.turn,
        shift: Point { c: [0, 0, 0, 0] },
    };
    match machine.outline(row.kind, scale, &at) {
        Ok(corners) => Bounds::of(machine.checked().order(), corners.as_slice()),
        Err(_) => None,
    }
}
