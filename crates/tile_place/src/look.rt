//! Finds the child of a part of a supertile that holds a point.
ghost use Rattle.std.specs.Prelude.{◌≡◌, ◌^◌, ◌&&◌, IfOk, IfSome};
ghost use Rattle.std.specs.Option.{option_map};
ghost use Rattle.theory_addresses.specs.Search.{or_else};
ghost use Rattle.theory_substitution.specs.Rule.{children_of};
ghost use Rattle.theory_substitution.specs.RuleParts.{child_of};
ghost use Rattle.theory_frames.specs.Looked.{values_of_child, values_of_children};
ghost use Rattle.theory_frames.specs.Part.{child_part, holder};
ghost use Rattle.cyclo_points.specs.Order.{points_of};
ghost use Rattle.cyclo_points.specs.Point.{point_in, IsWithin};
ghost use Rattle.cyclo_points.specs.Motion.{motion_in};
ghost use Rattle.rule_model.specs.Views.{rule_of};
ghost use Rattle.tile_place.specs.Inflated.{IsInflatedTile, outline_at, do_hold};
ghost use Rattle.tile_place.specs.Parts.{part_in, HasChild, IsPart, if_holds};
ghost use Rattle.tile_place.specs.Refused.{Visits};

use crate::coord_limit::CoordLimit;
use crate::inflated_tile::InflatedTile;
use crate::machine::Machine;
use crate::part::Part;
use crate::seen::Seen;
use cyclo_points::arithmetic::refused;
use cyclo_points::motion::Motion;
use cyclo_points::movement::compose;
use cyclo_points::point::Point;
use cyclo_points::product::mul;

impl Machine {
    /// Tests one child of a part: its shift first, and then its vertices. Returns the child, and true if
    /// `sought` is set and it holds the point. Err has the first value that is refused.
    pub(crate) fn look(
        &self,
        whole: &InflatedTile<'_>,
        number: u8,
        point: &Point,
        sought: bool,
    ) -> Result<Seen, CoordLimit>
        requires whole { IsInflatedTile self.now whole.now }
        requires child_exists { HasChild self.now whole.now.kind number }
        requires point_within { IsWithin (2 ^ 24) point.now }
        ensures part { IfOk result (λ seen. part_in self.now.order seen.part
            ≡ child_part (points_of self.now.order) (rule_of self.now)
            (point_in self.now.order whole.now.scale.now) (motion_in self.now.order whole.now.at.now) number
            (child_of (points_of self.now.order) (rule_of self.now) whole.now.kind number)) }
        ensures holds { IfOk result (λ seen. seen.holds ≡ (sought && do_hold self.now
            (outline_at self.now seen.part.kind whole.now.scale.now seen.part.motion) point.now)) }
        ensures is_part { IfOk result (λ seen. IsPart self.now seen.part) }
        ensures visits { Visits self.now.order
            (values_of_child (points_of self.now.order) (rule_of self.now)
            (point_in self.now.order whole.now.scale.now) (motion_in self.now.order whole.now.at.now)
            (child_of (points_of self.now.order) (rule_of self.now) whole.now.kind number)) result }
    {
        let checked = self.checked();
        let order = checked.order();
        let child = checked.child(whole.kind, number);
        let scaled = Motion {
            turn: child.turn,
            shift: mul(order, whole.scale, &child.shift),
        };
        let motion = compose(order, whole.at, &scaled);
        if refused(&motion.shift) {
            return Err(CoordLimit {
                value: motion.shift,
            });
        }
        let tile = InflatedTile {
            kind: child.kind,
            scale: whole.scale,
            at: &motion,
        };
        let holds = self.holds_where(&tile, point, sought)?;
        Ok(Seen {
            part: Part {
                child: number,
                kind: child.kind,
                motion,
            },
            holds,
        })
    }

    /// Tests all children of a part, and returns the first one that holds the point, if any. Err has the
    /// first value that is refused.
    pub(crate) fn holder(
        &self,
        whole: &InflatedTile<'_>,
        point: &Point,
    ) -> Result<Option<Part>, CoordLimit>
        requires whole { IsInflatedTile self.now whole.now }
        requires point_within { IsWithin (2 ^ 24) point.now }
        ensures held { IfOk result (λ part. option_map (part_in self.now.order) part
            ≡ holder (points_of self.now.order) (rule_of self.now)
            (point_in self.now.order whole.now.scale.now) (motion_in self.now.order whole.now.at.now)
            (point_in self.now.order point.now) 0 (children_of (rule_of self.now) whole.now.kind)) }
        ensures is_part { IfOk result (λ part. IfSome part (IsPart self.now)) }
        ensures visits { Visits self.now.order
            (values_of_children (points_of self.now.order) (rule_of self.now)
            (point_in self.now.order whole.now.scale.now) (motion_in self.now.order whole.now.at.now)
            (children_of (rule_of self.now) whole.now.kind)) result }
    {
        let count = self.checked().rule().child_count(usize::from(whole.kind));
        let mut held = None;
        for number in 0..count {
            let seen = self.look(whole, number as u8, point, held.is_none())?;
            held = first_held(held, seen);
        }
        Ok(held)
    }
}

/// Returns the part that was held before, if any; otherwise the part just tested, if it holds the point.
fn first_held(held: Option<Part>, seen: Seen) -> Option<Part>
    ensures { result ≡ or_else held (if_holds seen.holds seen.part) }
{
    match held {
        Some(part) => Some(part),
        None if seen.holds => Some(seen.part),
        None => None,
    }
}
