//! The relation of two tiles.
ghost use Rattle.std.specs.Prelude.{◌≡◌, None, IfOk};
ghost use Rattle.rule_model.specs.Tiling.{Tiling, tiling_of, contacts};
ghost use Rattle.tile_shape.specs.Views.{address_of};
ghost use Rattle.addr_calc.specs.Calculation.{BothFit};
ghost use Rattle.addr_calc.specs.Compiled.{AreOf};
ghost use Rattle.addr_calc.specs.Relation.{IsRelation};
ghost use Rattle.addr_calc.specs.Views.{relation_of};

use pair_machine::machine::PairMachine;
use pair_machine::verdict::Verdict;
use std::alloc::Global;
use theory_dissection::laws::across_law;
use tile_place::machine::Machine;
use tile_shape::address::Address;
use tile_shape::no_memory::NoMemory;

/// The pair machine of a rule, compiled when it is first needed.
#[derive(Drop)]
pub struct Pairs {
    alloc: Global,
    compiled: Option<Box<PairMachine>>,
}

impl Pairs {
    /// Makes a pair machine that is not compiled yet.
    pub fn new(alloc: Global) -> Pairs
        ensures { (t : Tiling) → AreOf t result }
    {
        Pairs {
            alloc,
            compiled: None,
        }
    }

    /// Returns the machine, and compiles it if that has not been done.
    fn take(&mut self, machine: &Machine) -> Result<Box<PairMachine>, NoMemory>
        requires compiled { AreOf (tiling_of machine.now) self.old }
        ensures none_left { self.new.compiled ≡ None }
        ensures tables { IfOk result (λ pairs. pairs.value ≡ contacts (tiling_of machine.now)) }
    {
        match self.compiled.take() {
            Some(compiled) => Ok(compiled),
            None => {
                let compiled = PairMachine::compile(self.alloc, machine.checked().tables())?;
                Ok(Box::new(self.alloc, compiled)?)
            }
        }
    }

    /// Decides how two tiles of the machine's rule lie to each other: by all edges of one that have the other
    /// across them. It fails only if memory runs out.
    pub fn decide(
        &mut self,
        machine: &Machine,
        one: &Address,
        other: &Address,
    ) -> Result<Verdict, NoMemory>
        requires compiled { AreOf (tiling_of machine.now) self.old }
        requires fit { BothFit (tiling_of machine.now) (address_of one.now) (address_of other.now) }
        ensures compiled { AreOf (tiling_of machine.now) self.new }
        ensures relation { IfOk result (λ verdict. IsRelation (tiling_of machine.now) (address_of one.now)
            (address_of other.now) (relation_of verdict)) }
    {
        let pairs = self.take(machine)?;
        let verdict = decide(machine, &pairs, one, other);
        self.compiled = Some(pairs);
        Ok(verdict)
    }
}

/// Returns the relation of two tiles in the plane.
fn decide(machine: &Machine, pairs: &PairMachine, one: &Address, other: &Address) -> Verdict
    requires tables { pairs.now ≡ contacts (tiling_of machine.now) }
    requires fit { BothFit (tiling_of machine.now) (address_of one.now) (address_of other.now) }
    ensures { IsRelation (tiling_of machine.now) (address_of one.now) (address_of other.now)
        (relation_of result) }
{
    // The law by which the edges that touch are those across, and what it requires of the tables.
    across_law(machine.checked().order());
    let _coherent = machine.checked().tables().kinds();
    pairs.decide(one, other)
}
