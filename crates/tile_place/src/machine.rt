//! An accepted rule, ready for questions about its tiles.
ghost use Rattle.std.specs.Prelude.{◌≡◌, ◌+◌, ◌*◌, ◌<◌, ◌≤◌, ◌^◌, ℕ, length, IsOk, None, Some, IfOk, IfErr, OnOk, OnErr, Err};
ghost use Rattle.theory_addresses.specs.Address.{depth, Fits};
ghost use Rattle.theory_addresses.specs.Tables.{child_kinds};
ghost use Rattle.theory_substitution.specs.RuleParts.{edge_count};
ghost use Rattle.theory_edge_to_edge.specs.EdgeTypes.{edge_vector};
ghost use Rattle.cyclo_points.specs.Order.{points_of};
ghost use Rattle.cyclo_points.specs.Point.{point_in, IsOf, IsWithin};
ghost use Rattle.cyclo_points.specs.Motion.{motion_in};
ghost use Rattle.rule_model.specs.Accepted.{IsAccepted};
ghost use Rattle.rule_model.specs.Tiling.{tiling_of, contacts, children, IsPlaced};
ghost use Rattle.rule_model.specs.Usable.{IsUsable};
ghost use Rattle.rule_model.specs.Views.{rule_of};
ghost use Rattle.tile_shape.specs.Views.{address_of};
ghost use Rattle.transducer_core.specs.Crossed.{IsCrossing, IsCrossingInPlace};
ghost use Rattle.tile_place.specs.Crossed.{IsOnlyAcross, LiesAlongNone, LiesOnBoundary};
ghost use Rattle.tile_place.specs.EdgeTurns.{IsGreatest};
ghost use Rattle.tile_place.specs.Glued.{HasKindEdge};
ghost use Rattle.tile_place.specs.Placing.{first_refused};
ghost use Rattle.tile_place.specs.TurnedVertices.{IsTurned};

use crate::coord_limit::CoordLimit;
use crate::edge_turns::EdgeTurns;
use crate::place::place;
use crate::turned_vertices::TurnedVertices;
use cyclo_points::motion::Motion;
use cyclo_points::point::Point;
use edge_tables::steps::Steps;
use rule_model::checked::Checked;
use std::alloc::Global;
use std::marker::Model;
use std::sync::ledger::Ledger;
use tile_shape::address::Address;
use tile_shape::no_memory::NoMemory;
use transducer_core::crossing::{Crossing, put_digits};
use transducer_core::outside::Outside;
use transducer_core::transducer::Transducer;

/// An accepted rule with the transducer of its contact tables, the turned vertices of its kinds, and the
/// turns of its edges. Contracts see it as the rule, which determines all of them.
#[derive(Drop)]
pub struct Machine {
    checked: Checked,
    transducer: Transducer,
    vertices: TurnedVertices,
    edges: EdgeTurns,
}

impl Model for Machine {
    ghost use Rattle.rule_model.specs.declared.rule.Rule.{Rule};
    ghost use Rattle.rule_model.specs.Tiling.{tiling_of};
    ghost use Rattle.tile_place.specs.Machine.{HasTables};

    ghost Value = { Rule };

    ghost view = { λ m. m.checked };

    ghost invariant = { λ m. HasTables (tiling_of m.checked) m.transducer m.vertices m.edges };
}

impl Machine {
    /// Makes the machine of an accepted rule. Err if memory runs out.
    pub fn new(alloc: Global, checked: Checked) -> Result<Machine, NoMemory>
        ensures its_rule { IfOk result (λ machine. machine ≡ checked) }
    {
        let transducer = Transducer::compile(alloc, checked.tables())?;
        let vertices = TurnedVertices::new(alloc, &checked)?;
        let edges = EdgeTurns::new(alloc, &checked, &vertices)?;
        Ok(Machine {
            checked,
            transducer,
            vertices,
            edges,
        })
    }

    /// Returns the rule. It is accepted, and its tables and uses name the same children.
    pub fn checked(&self) -> &Checked
        ensures rule { result.now ≡ self.now }
        ensures accepted { IsAccepted self.now }
        ensures usable { IsUsable self.now }
        ensures same_child_kinds { child_kinds (contacts (tiling_of self.now)) ≡ children
            (tiling_of self.now) }
    {
        let _accepted = self.checked.rule();
        let _same_child_kinds = self.checked.tables();
        &self.checked
    }

    /// Returns the transducer of its contact tables.
    pub(crate) fn transducer(&self) -> &Transducer
        ensures { result.now ≡ contacts (tiling_of self.now) }
    {
        &self.transducer
    }

    /// Returns a vertex of a kind, turned by ζ^steps.
    pub(crate) fn turned_vertex(&self, kind: u8, steps: u8, number: usize) -> Point
        requires exists { kind < length (rule_of self.now).kinds }
        requires turn_below { steps < (points_of self.now.order).order }
        requires vertex_exists { number < edge_count (rule_of self.now) kind }
        ensures { IsTurned (tiling_of self.now) kind steps number result }
    {
        self.vertices.at(kind, steps, number)
    }

    /// Returns the turn by which the vector of an edge becomes greatest.
    pub(crate) fn edge_turn(&self, kind: u8, edge: u8) -> u8
        requires exists { HasKindEdge (tiling_of self.now) kind edge }
        ensures { IsGreatest self.now.order (edge_vector (points_of self.now.order) (rule_of self.now) kind
            edge) result }
    {
        self.edges.at(kind, edge)
    }

    /// Returns the motion of a tile in its supertile, like [`place`]. The address must fit the rule.
    pub fn place(&self, addr: &Address) -> Result<Motion, CoordLimit>
        requires fits { Fits (children (tiling_of self.now)) (address_of addr.now) }
        ensures beside { IfOk result (λ motion. IsPlaced (tiling_of self.now) (address_of addr.now)
            (motion_in self.now.order motion)) }
        ensures within { IfOk result (λ _. first_refused (tiling_of self.now)
            (address_of addr.now).digits ≡ None) }
        ensures turn_below { IfOk result (λ motion. motion.turn < (points_of self.now.order).order) }
        ensures shift_within { IfOk result (λ motion. IsWithin (2 ^ 24) motion.shift) }
        ensures in_order { IfOk result (λ motion. IsOf self.now.order motion.shift) }
        ensures limit { IfErr result (λ limit. first_refused (tiling_of self.now) (address_of addr.now).digits
            ≡ Some (point_in self.now.order limit.value)) }
        ensures limit_in_order { IfErr result (λ limit. IsOf self.now.order limit.value) }
    {
        place(&self.checked, addr)
    }

    /// Finds the tile across an edge of a tile, and the edge of that tile that leads back. Both tiles are
    /// taken in the supertile that `addr` names, so both addresses have the same depth.
    ///
    /// `steps` counts the table look-ups: at most twice the depth, plus two.
    ///
    /// # Errors
    ///
    /// `Outside` if and only if the edge lies on the boundary of that supertile. It has the edge of the
    /// supertile, and the part of that edge.
    pub fn cross<L: Ledger>(
        &self,
        addr: &Address,
        edge: u8,
        steps: &mut Steps<L>,
    ) -> Result<Crossing, Outside>
        requires fits { Fits (children (tiling_of self.now)) (address_of addr.now) }
        requires edge_exists { HasKindEdge (tiling_of self.now) addr.now.kind edge }

        // By the contact tables of the rule's geometry.
        ensures crossing { IsCrossing (contacts (tiling_of self.now)) (address_of addr.now) edge result
            (λ x. address_of x.addr) (λ x. x.edge) }
        ensures answer_fits { IfOk result (λ x. Fits (children (tiling_of self.now)) (address_of x.addr)) }

        // In the plane, with both tiles placed in their common supertile: the result is the only tile across,
        // its edge leads back, and the call fails exactly on the boundary.
        ensures only_tile_across { IfOk result (λ x. IsOnlyAcross (tiling_of self.now) (address_of addr.now)
            edge (address_of x.addr) x.edge) }
        ensures leads_back { IfOk result (λ x. IsOnlyAcross (tiling_of self.now) (address_of x.addr) x.edge
            (address_of addr.now) edge) }
        ensures outside_on_boundary { IfErr result
            (λ o. LiesOnBoundary (tiling_of self.now) (address_of addr.now) edge o.edge o.part) }
        ensures boundary_is_outside { (own part : ℕ)
            → LiesOnBoundary (tiling_of self.now) (address_of addr.now) edge own part
            → result ≡ Err (record { edge = own; part = part }) }
        ensures inside { OnOk result (LiesAlongNone (tiling_of self.now) (address_of addr.now) edge) }

        ensures steps_within_bound { steps.new ≤ steps.old + (2 * depth (address_of addr.now) + 2) }
    {
        let mut there = Address::new(addr.kind);
        put_digits(&mut there, addr);
        match self.cross_in_place(&mut there, edge, steps) {
            Ok(back) => Ok(Crossing {
                addr: there,
                edge: back,
            }),
            Err(outside) => Err(outside),
        }
    }

    /// Like [`cross`](Self::cross), but in place: replaces `addr` by the address of the tile across, and
    /// returns the edge that leads back. On `Outside`, `addr` is unchanged.
    pub fn cross_in_place<L: Ledger>(
        &self,
        addr: &mut Address,
        edge: u8,
        steps: &mut Steps<L>,
    ) -> Result<u8, Outside>
        requires fits { Fits (children (tiling_of self.now)) (address_of addr.old) }
        requires edge_exists { HasKindEdge (tiling_of self.now) addr.old.kind edge }

        ensures crossing { IsCrossingInPlace (contacts (tiling_of self.now)) addr.old edge result addr.new }
        ensures answer_fits { Fits (children (tiling_of self.now)) (address_of addr.new) }
        ensures only_tile_across { IfOk result (λ back. IsOnlyAcross (tiling_of self.now)
            (address_of addr.old) edge (address_of addr.new) back) }
        ensures leads_back { IfOk result (λ back. IsOnlyAcross (tiling_of self.now) (address_of addr.new)
            back (address_of addr.old) edge) }
        ensures outside_on_boundary { IfErr result
            (λ o. LiesOnBoundary (tiling_of self.now) (address_of addr.old) edge o.edge o.part) }
        ensures boundary_is_outside { (own part : ℕ)
            → LiesOnBoundary (tiling_of self.now) (address_of addr.old) edge own part
            → result ≡ Err (record { edge = own; part = part }) }
        ensures inside { OnOk result (LiesAlongNone (tiling_of self.now) (address_of addr.old) edge) }
        ensures steps_within_bound { steps.new ≤ steps.old + (2 * depth (address_of addr.old) + 2) }
    {
        let digits = addr.digits.as_mut_slice();
        self.cross_digits(&mut addr.kind, digits, edge, steps)
    }
}
