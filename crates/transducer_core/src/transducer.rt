//! The machine that finds the tile across an edge.
ghost use Rattle.std.specs.Prelude.{◌≡◌, ◌+◌, ◌*◌, ◌≤◌, ◌-◌, ◌↔◌, length, map, slice_index, IsSome, IsTrue, IfOk, OnErr};
ghost use Rattle.theory_addresses.specs.Address.{depth, Fits};
ghost use Rattle.theory_addresses.specs.Coherent.{IsCoherent};
ghost use Rattle.theory_addresses.specs.Tables.{child_kinds, type_of};
ghost use Rattle.tile_shape.specs.Views.{address_of, step_of};
ghost use Rattle.transducer_core.specs.Crossed.{IsCrossing, IsCrossingInPlace};

use crate::climb::climb;
use crate::crossing::{Crossing, put_digits};
use crate::descent::write_down;
use crate::flat_table::FlatTable;
use crate::outside::Outside;
use edge_tables::steps::Steps;
use edge_tables::tables::Tables;
use std::alloc::Global;
use std::marker::Model;
use std::sync::ledger::Ledger;
use tile_shape::address::Address;
use tile_shape::no_memory::NoMemory;
use tile_shape::step::Step;

/// Finds the tile across an edge by contact tables. Contracts see it as those tables.
#[derive(Drop)]
pub struct Transducer {
    flat: FlatTable,
}

impl Model for Transducer {
    ghost use Rattle.theory_addresses.specs.Tables.{Tables as TheTables};
    ghost use Rattle.theory_addresses.specs.Coherent.{IsCoherent};

    ghost Value = { TheTables };

    ghost view = { λ machine. machine.flat };

    ghost invariant = { λ machine. IsCoherent machine.flat };
}

impl Transducer {
    /// Makes the transducer of these tables. It fails only if memory runs out.
    pub fn compile(alloc: Global, tables: &Tables) -> Result<Transducer, NoMemory>
        ensures tables { IfOk result (λ machine. machine ≡ tables.now) }
        ensures coherent { IsCoherent tables.now }
    {
        let _coherent = tables.kinds();
        Ok(Transducer {
            flat: FlatTable::build(alloc, tables)?,
        })
    }

    /// Returns its flat table.
    pub fn flat(&self) -> &FlatTable
        ensures { result.now ≡ self.now }
    {
        &self.flat
    }

    /// Finds the tile across an edge, and the edge of that tile that leads back. Both tiles are of the
    /// supertile that `addr` names, so both addresses have one depth.
    ///
    /// `steps` counts the look-ups: at most twice the depth, plus two.
    ///
    /// # Errors
    ///
    /// `Outside` if and only if the edge lies on the supertile's own edge. It says on which edge, and on
    /// which part.
    pub fn step_across<L: Ledger>(
        &self,
        addr: &Address,
        edge: u8,
        steps: &mut Steps<L>,
    ) -> Result<Crossing, Outside>
        requires fits { Fits (child_kinds self.now) (address_of addr.now) }
        requires edge_exists { IsSome (type_of self.now addr.now.kind edge) }

        // The result is a tile if and only if a pair is touched, and the boundary if and only if there is a
        // trace to the top.
        ensures crossing { IsCrossing self.now (address_of addr.now) edge result
            (λ x. address_of x.addr) (λ x. x.edge) }

        ensures steps_within_bound { steps.new ≤ steps.old + (2 * depth (address_of addr.now) + 2) }
    {
        let mut there = Address::new(addr.kind);
        put_digits(&mut there, addr);
        match self.step_across_in_place(&mut there, edge, steps) {
            Ok(back) => Ok(Crossing {
                addr: there,
                edge: back,
            }),
            Err(outside) => Err(outside),
        }
    }

    /// Like [`step_across`](Self::step_across), but in place: replaces the address by that of the tile
    /// across, and returns the edge that leads back. On `Outside` the address is unchanged.
    pub fn step_across_in_place<L: Ledger>(
        &self,
        addr: &mut Address,
        edge: u8,
        steps: &mut Steps<L>,
    ) -> Result<u8, Outside>
        requires fits { Fits (child_kinds self.now) (address_of addr.old) }
        requires edge_exists { IsSome (type_of self.now addr.old.kind edge) }
        ensures crossing { IsCrossingInPlace self.now addr.old edge result addr.new }
        ensures steps_within_bound { steps.new ≤ steps.old + (2 * depth (address_of addr.old) + 2) }
    {
        let digits = addr.digits.as_mut_slice();
        self.step_across_digits(&mut addr.kind, digits, edge, steps)
    }

    /// Like [`step_across_in_place`](Self::step_across_in_place), for a kind and at most 64 digits, finest
    /// first.
    #[inline(always)]
    pub fn step_across_digits<L: Ledger>(
        &self,
        kind: &mut u8,
        digits: &mut [Step],
        edge: u8,
        steps: &mut Steps<L>,
    ) -> Result<u8, Outside>
        requires fits { Fits (child_kinds self.now)
            (record { kind = kind.old; digits = map step_of digits.old }) }
        requires no_deeper { length digits.old ≤ 64 }
        requires edge_exists { IsSome (type_of self.now kind.old edge) }
        ensures crossing { IsCrossing self.now (record { kind = kind.old; digits = map step_of digits.old })
            edge result (λ _. record { kind = kind.new; digits = map step_of digits.new }) (λ back. back) }
        ensures unchanged { OnErr result ((kind.new ≡ kind.old) × (digits.new ≡ digits.old)) }
        ensures steps_within_bound { steps.new ≤ steps.old + (2 * length digits.old + 2) }
    {
        let depth = digits.len();
        let mut parts = [0u8; 64];
        match climb(&self.flat, *kind, digits, edge, &mut parts, steps) {
            Ok(edge) => {
                let part = top_part(&parts[..depth]);
                Err(Outside { edge, part })
            }
            Err(meeting) => {
                let parts = &parts[..meeting.level];
                let side = write_down(&self.flat, digits, meeting, parts, steps);
                *kind = (side.row / 256) as u8;
                Ok(side.edge as u8)
            }
        }
    }

    /// Returns true if the kind exists and each digit's child has the kind below it.
    #[inline(always)]
    pub fn fits(&self, kind: u8, digits: &[Step]) -> bool
        ensures { IsTrue result ↔ Fits (child_kinds self.now)
            (record { kind = kind; digits = map step_of digits.now }) }
    {
        self.flat.fits(kind, digits)
    }
}

/// Returns the last part, the one on the top's own edge, or 0 if there is none.
fn top_part(parts: &[u8]) -> u8
    ensures { result ≡ slice_index parts.now (length parts.now - 1) }
{
    if parts.is_empty() {
        0
    } else {
        parts[parts.len() - 1]
    }
}
