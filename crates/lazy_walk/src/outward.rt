//! From the base of a frame outward, through its ancestors.
ghost use Rattle.std.specs.Prelude.{◌≡◌, ◌+◌, ◌<◌, ◌≤◌, max, find, Some, length, slice_get, IfOk, IfErr};
ghost use Rattle.theory_addresses.specs.Address.{top_kind, Fits};
ghost use Rattle.cyclo_points.specs.Order.{is_refused};
ghost use Rattle.cyclo_points.specs.Point.{point_in, IsOf};
ghost use Rattle.theory_frames.specs.Frame.{at_level};
ghost use Rattle.rule_model.specs.Tiling.{tiling_of, children};
ghost use Rattle.rule_model.specs.Views.{rule_of};
ghost use Rattle.tile_shape.specs.Views.{step_of};
ghost use Rattle.theory_walks.specs.Ancestors.{full, values_of_level};
ghost use Rattle.lazy_walk.specs.Ancestors.{IsAncestor, IsNextOut};
ghost use Rattle.tile_place.specs.Steps.{HasStep};
ghost use Rattle.theory_walks.specs.Frames.{whole, IsFrameOf, GrowsTo};

use crate::ancestor::{Ancestor, next_power, one_out};
use crate::frame::Frame;
use cyclo_points::arithmetic::refused;
use seeded_growth::laws::grown_fits_law;
use tile_place::coord_limit::CoordLimit;
use tile_place::machine::Machine;
use tile_shape::step::Step;

impl Frame {
    /// Returns the kind of the base's ancestor at a level, which is one of the rule.
    pub fn kind_of(&self, machine: &Machine, level: u8) -> u8
        requires frame { IsFrameOf (tiling_of machine.now) self.now }
        requires deep { level ≤ length self.now.digits }
        ensures kind { result ≡ top_kind (at_level (full (tiling_of machine.now) self.now) level) }
        ensures exists { result < length (rule_of machine.now).kinds }
        ensures frame_fits { Fits (children (tiling_of machine.now)) (whole self.now) }
    {
        grown_fits_law();
        let _usable = machine.checked().uses().kinds();
        self.kind_at(level)
    }

    /// Returns the digit by which the base's ancestor at a level is a child of the next one.
    pub(crate) fn digit_of(&self, machine: &Machine, level: u8) -> Step
        requires frame { IsFrameOf (tiling_of machine.now) self.now }
        requires deep { level < length self.now.digits }
        ensures digit { slice_get (full (tiling_of machine.now) self.now).digits level ≡ Some
            (step_of result) }
        ensures step { HasStep (tiling_of machine.now) result }
    {
        grown_fits_law();
        let _usable = machine.checked().uses().kinds();
        self.digits()[level as usize]
    }

    /// Returns the next ancestor outward. The frame grows to it, unless it is as deep already.
    ///
    /// # Errors
    ///
    /// `CoordLimit` with the first refused value: the power of the inflation factor, then the shift.
    pub fn next_out(
        &mut self,
        machine: &Machine,
        ancestor: &Ancestor,
    ) -> Result<Ancestor, CoordLimit>
        requires frame { IsFrameOf (tiling_of machine.now) self.old }
        requires deep { ancestor.now.level ≤ length self.old.digits }
        requires more { ancestor.now.level < 64 }
        requires ancestor { IsAncestor (tiling_of machine.now) (full (tiling_of machine.now) self.old)
            ancestor.now }
        ensures frame { GrowsTo (tiling_of machine.now) self.old self.new }
        ensures next { IfOk result (IsNextOut (tiling_of machine.now) self.old self.new
            ancestor.now.level) }
        ensures no_deeper { length self.new.digits ≤ max (length self.old.digits) (ancestor.now.level + 1) }
        ensures limit { IfErr result (λ limit. find (is_refused machine.now.order)
            (values_of_level (tiling_of machine.now) (full (tiling_of machine.now) self.old)
            (ancestor.now.level + 1)) ≡ Some (point_in machine.now.order limit.value)) }
        ensures limit_in_order { IfErr result (λ limit. IsOf machine.now.order limit.value) }
    {
        let power = next_power(machine, &ancestor.power)?;
        let level = ancestor.level + 1;
        self.grow_to(machine, level);
        let digit = self.digit_of(machine, ancestor.level);
        let motion = one_out(machine, digit, &ancestor.power, &ancestor.motion);
        if refused(&motion.shift) {
            return Err(CoordLimit {
                value: motion.shift,
            });
        }
        Ok(Ancestor {
            level,
            power,
            motion,
        })
    }
}
