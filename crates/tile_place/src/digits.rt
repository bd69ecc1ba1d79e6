//! Questions about a tile by its kind and its digits, finest first, with no address made of them.
ghost use Rattle.std.specs.Prelude.{◌≡◌, ◌↔◌, ◌+◌, ◌*◌, ◌<◌, ◌≤◌, ◌^◌, ℕ, length, map, None, Some, IsTrue, IfOk, IfErr, OnOk, OnErr, Err};
ghost use Rattle.theory_addresses.specs.Address.{Fits};
ghost use Rattle.cyclo_points.specs.Order.{points_of};
ghost use Rattle.cyclo_points.specs.Point.{point_in, IsOf, IsWithin};
ghost use Rattle.cyclo_points.specs.Motion.{motion_in};
ghost use Rattle.rule_model.specs.Tiling.{tiling_of, contacts, children, IsPlaced};
ghost use Rattle.tile_shape.specs.Views.{step_of};
ghost use Rattle.transducer_core.specs.Crossed.{IsCrossing};
ghost use Rattle.tile_place.specs.Crossed.{IsOnlyAcross, LiesAlongNone, LiesOnBoundary};
ghost use Rattle.tile_place.specs.Glued.{CanBeCrossed};
ghost use Rattle.tile_place.specs.Placing.{first_refused};

use crate::coord_limit::CoordLimit;
use crate::machine::Machine;
use crate::place::place_digits;
use cyclo_points::motion::Motion;
use edge_tables::steps::Steps;
use std::sync::ledger::Ledger;
use theory_dissection::laws::{across_law, boundary_law};
use tile_shape::step::Step;
use transducer_core::outside::Outside;

impl Machine {
    /// Returns true if the kind exists and each digit's child has the kind below it.
    #[inline(always)]
    pub fn fits(&self, kind: u8, digits: &[Step]) -> bool
        ensures { IsTrue result ↔ Fits (children (tiling_of self.now))
            (record { kind = kind; digits = map step_of digits.now }) }
    {
        let _same_child_kinds = self.checked();
        self.transducer().fits(kind, digits)
    }

    /// Returns the motion of a tile in its supertile, like [`place`](Self::place).
    pub fn place_digits(&self, kind: u8, digits: &[Step]) -> Result<Motion, CoordLimit>
        requires fits { Fits (children (tiling_of self.now))
            (record { kind = kind; digits = map step_of digits.now }) }
        ensures beside { IfOk result (λ motion. IsPlaced (tiling_of self.now)
            (record { kind = kind; digits = map step_of digits.now }) (motion_in self.now.order motion)) }
        ensures within { IfOk result (λ _. first_refused (tiling_of self.now) (map step_of digits.now)
            ≡ None) }
        ensures turn_below { IfOk result (λ motion. motion.turn < (points_of self.now.order).order) }
        ensures shift_within { IfOk result (λ motion. IsWithin (2 ^ 24) motion.shift) }
        ensures in_order { IfOk result (λ motion. IsOf self.now.order motion.shift) }
        ensures limit { IfErr result (λ limit. first_refused (tiling_of self.now) (map step_of digits.now)
            ≡ Some (point_in self.now.order limit.value)) }
        ensures limit_in_order { IfErr result (λ limit. IsOf self.now.order limit.value) }
    {
        place_digits(self.checked(), kind, digits)
    }

    /// Like [`cross_in_place`](Self::cross_in_place), for a kind and at most 64 digits. Only the digits that
    /// change are written. On `Outside` the kind and the digits are unchanged.
    #[inline(always)]
    pub fn cross_digits<L: Ledger>(
        &self,
        kind: &mut u8,
        digits: &mut [Step],
        edge: u8,
        steps: &mut Steps<L>,
    ) -> Result<u8, Outside>
        requires edge { CanBeCrossed (tiling_of self.now)
            (record { kind = kind.old; digits = map step_of digits.old }) edge }

        ensures crossing { IsCrossing (contacts (tiling_of self.now))
            (record { kind = kind.old; digits = map step_of digits.old }) edge result
            (λ _. record { kind = kind.new; digits = map step_of digits.new }) (λ back. back) }
        ensures answer_fits { Fits (children (tiling_of self.now))
            (record { kind = kind.new; digits = map step_of digits.new }) }
        ensures only_tile_across { IfOk result (λ back. IsOnlyAcross (tiling_of self.now)
            (record { kind = kind.old; digits = map step_of digits.old }) edge
            (record { kind = kind.new; digits = map step_of digits.new }) back) }
        ensures leads_back { IfOk result (λ back. IsOnlyAcross (tiling_of self.now)
            (record { kind = kind.new; digits = map step_of digits.new }) back
            (record { kind = kind.old; digits = map step_of digits.old }) edge) }
        ensures outside_on_boundary { IfErr result (λ o. LiesOnBoundary (tiling_of self.now)
            (record { kind = kind.old; digits = map step_of digits.old }) edge o.edge o.part) }
        ensures boundary_is_outside { (own part : ℕ) → LiesOnBoundary (tiling_of self.now)
            (record { kind = kind.old; digits = map step_of digits.old }) edge own part
            → result ≡ Err (record { edge = own; part = part }) }
        ensures inside { OnOk result (LiesAlongNone (tiling_of self.now)
            (record { kind = kind.old; digits = map step_of digits.old }) edge) }
        ensures unchanged { OnErr result ((kind.new ≡ kind.old) × (digits.new ≡ digits.old)) }
        ensures steps_within_bound { steps.new ≤ steps.old + (2 * length digits.old + 2) }
    {
        let order = self.checked().order();
        across_law(order);
        boundary_law(order);
        self.transducer()
            .step_across_digits(kind, digits, edge, steps)
    }
}
