//! The state of a script that is run.
ghost use Rattle.std.specs.Prelude.{◌≡◌, ◌+◌, ◌<◌, ◌≤◌, ◌^◌, ◌++◌, [], ◌∷◌, length, OnOk, IfOk, IfErr};
ghost use Rattle.cyclo_points.specs.Text.{blank};
ghost use Rattle.rule_model.specs.Tiling.{Tiling, tiling_of};
ghost use Rattle.tile_shape.specs.Views.{address_of};
ghost use Rattle.addr_calc.specs.Bindings.{none_bound, address_of_name, IsBound, IsUnbound};
ghost use Rattle.addr_calc.specs.Calculation.{AllFit, CanRunLine, HasPrinted, WasDone, WasRun};
ghost use Rattle.addr_calc.specs.Compiled.{AreOf};
ghost use Rattle.addr_calc.specs.Printed.{letter, across_line, level_text};
ghost use Rattle.addr_calc.specs.Refuses.{LineRefuses, HasFault};
ghost use Rattle.addr_calc.specs.Script.{LineOrNoMemory};
ghost use Rattle.addr_calc.specs.Statement.Statement.{Let, Show, Place, Across, Common, Pair};
ghost use Rattle.addr_calc.specs.declared.calc_fault.CalcFault.TheVariants.{UnknownName};

use crate::bindings::Bindings;
use crate::calc_fault::CalcFault;
use crate::level::common_level;
use crate::name::Name;
use crate::pairs::Pairs;
use crate::relation_line::put_relation;
use crate::statement::{Statement, statement_in};
use edge_tables::steps::Steps;
use layer_api::line::Line;
use std::alloc::{AllocError, Global};
use std::sync::ledger::Ledger;
use tile_place::machine::Machine;
use tile_shape::address::Address;
use tile_shape::reading::read_address;
use transducer_core::crossing::put_digits;

/// The names as they are bound, the text printed so far, and the number of the line that is run.
#[derive(Drop)]
pub struct Calculation {
    names: Bindings,
    text: Vec<u8>,
    number: u32,
    /// The line that is being printed, which is written from its end to its beginning.
    line: Line,
}

impl Calculation {
    /// Makes a calculation in which no name is bound, nothing is printed, and no line was run.
    pub fn new(alloc: Global) -> Result<Calculation, AllocError>
        ensures names { IfOk result (λ c. c.names ≡ none_bound) }
        ensures text { IfOk result (λ c. c.text.items ≡ []) }
        ensures number { IfOk result (λ c. c.number ≡ 0) }
    {
        Ok(Calculation {
            names: Bindings::new(alloc)?,
            text: Vec::new(alloc),
            number: 0,
            line: Line::new(),
        })
    }

    /// Returns the text printed.
    pub fn into_text(self) -> Vec<u8>
        ensures { result.items ≡ self.text.items }
    {
        self.text
    }

    /// Runs the next line.
    pub fn run<L: Ledger>(
        &mut self,
        machine: &Machine,
        pairs: &mut Pairs,
        line: &[u8],
        steps: &mut Steps<L>,
    ) -> Result<(), CalcFault>
        requires few { self.old.number + 1 < 2 ^ 32 }
        requires ready { CanRunLine (tiling_of machine.now) self.old.names pairs.old }
        ensures compiled { AreOf (tiling_of machine.now) pairs.new }
        ensures ran { OnOk result (WasRun (tiling_of machine.now) line.now self.old self.new) }
        ensures fault { IfErr result (LineOrNoMemory
            (HasFault (tiling_of machine.now) self.old.names (self.old.number + 1) line.now)) }
    {
        self.number += 1;
        match statement_in(line) {
            Err(place) => Err(CalcFault::BadLine {
                line: self.number,
                place,
            }),
            Ok(Statement::Nothing) => Ok(()),
            Ok(Statement::Let { name, text }) => self.bind(machine, name, text),
            Ok(Statement::Show { name }) => self.show(name),
            Ok(Statement::Place { name }) => self.place(machine, name),
            Ok(Statement::Across { name, edge, other }) => {
                self.across(machine, name, edge, other, steps)
            }
            Ok(Statement::Common { one, other }) => self.common(one, other),
            Ok(Statement::Pair { one, other }) => self.pair(machine, pairs, one, other),
        }
    }

    /// `let name address`.
    fn bind(&mut self, machine: &Machine, name: Name, text: &[u8]) -> Result<(), CalcFault>
        ensures done { OnOk result (WasDone (tiling_of machine.now) (Let name.number text.now) self.old
            self.new) }
        ensures refused { IfErr result (LineOrNoMemory
            (LineRefuses (tiling_of machine.now) self.old.names (Let name.number text.now) self.old.number)) }
    {
        match read_address(machine.checked().uses(), text) {
            Ok(address) => {
                self.names.bind(name, address);
                Ok(())
            }
            Err(fault) => Err(CalcFault::Address {
                line: self.number,
                fault,
            }),
        }
    }

    /// `show name`.
    fn show(&mut self, name: Name) -> Result<(), CalcFault>
        ensures done { (t : Tiling) → OnOk result (WasDone t (Show name.number) self.old self.new) }
        ensures refused { (t : Tiling) → IfErr result
            (LineOrNoMemory (LineRefuses t self.old.names (Show name.number) self.old.number)) }
    {
        let Some(address) = self.names.get(name) else {
            return Err(CalcFault::UnknownName { line: self.number });
        };
        self.line.clear();
        self.line.put(b'\n');
        self.line.put_address(address);
        Ok(self.print(name)?)
    }

    /// `place name`.
    fn place(&mut self, machine: &Machine, name: Name) -> Result<(), CalcFault>
        requires all_fit { AllFit (tiling_of machine.now) self.old.names }
        ensures done { OnOk result (WasDone (tiling_of machine.now) (Place name.number) self.old self.new) }
        ensures refused { IfErr result (LineOrNoMemory
            (LineRefuses (tiling_of machine.now) self.old.names (Place name.number) self.old.number)) }
    {
        let Some(address) = self.names.get(name) else {
            return Err(CalcFault::UnknownName { line: self.number });
        };
        match machine.place(address) {
            Ok(motion) => {
                self.line.clear();
                self.line.put(b'\n');
                self.line.put_motion(&motion);
                self.line.put(b' ');
                self.line.put_small(address.kind);
                Ok(self.print(name)?)
            }
            Err(limit) => Err(CalcFault::CoordLimit {
                line: self.number,
                value: limit.value,
            }),
        }
    }

    /// `across name edge other`.
    fn across<L: Ledger>(
        &mut self,
        machine: &Machine,
        name: Name,
        edge: u8,
        other: Name,
        steps: &mut Steps<L>,
    ) -> Result<(), CalcFault>
        requires all_fit { AllFit (tiling_of machine.now) self.old.names }
        ensures done { OnOk result (WasDone (tiling_of machine.now) (Across name.number edge other.number)
            self.old self.new) }
        ensures refused { IfErr result (LineOrNoMemory
            (LineRefuses (tiling_of machine.now) self.old.names (Across name.number edge other.number)
            self.old.number)) }
    {
        let Some(address) = self.names.get(name) else {
            return Err(CalcFault::UnknownName { line: self.number });
        };
        if edge >= machine.checked().tables().edges(address.kind) {
            return Err(CalcFault::NoEdge { line: self.number });
        }
        let mut there = Address::new(address.kind);
        put_digits(&mut there, address);
        match machine.cross_in_place(&mut there, edge, steps) {
            Ok(back) => {
                self.print_across(other, &there, back)?;
                self.names.bind(other, there);
                Ok(())
            }
            Err(outside) => Err(CalcFault::Outside {
                line: self.number,
                edge: outside.edge,
                part: outside.part,
            }),
        }
    }

    /// `common one other`.
    fn common(&mut self, one: Name, other: Name) -> Result<(), CalcFault>
        ensures done { (t : Tiling) → OnOk result
            (WasDone t (Common one.number other.number) self.old self.new) }
        ensures refused { (t : Tiling) → IfErr result
            (LineOrNoMemory (LineRefuses t self.old.names (Common one.number other.number) self.old.number)) }
    {
        let (Some(first), Some(second)) = (self.names.get(one), self.names.get(other)) else {
            return Err(CalcFault::UnknownName { line: self.number });
        };
        self.line.clear();
        self.line.put(b'\n');
        put_level(&mut self.line, common_level(first, second));
        self.line.put(b' ');
        self.line.put(other.letter());
        Ok(self.print(one)?)
    }

    /// `pair one other`.
    fn pair(
        &mut self,
        machine: &Machine,
        pairs: &mut Pairs,
        one: Name,
        other: Name,
    ) -> Result<(), CalcFault>
        requires ready { CanRunLine (tiling_of machine.now) self.old.names pairs.old }
        ensures compiled { AreOf (tiling_of machine.now) pairs.new }
        ensures done { OnOk result (WasDone (tiling_of machine.now) (Pair one.number other.number) self.old
            self.new) }
        ensures refused { IfErr result (LineOrNoMemory
            (LineRefuses (tiling_of machine.now) self.old.names (Pair one.number other.number)
            self.old.number)) }
    {
        let (Some(first), Some(second)) = (self.names.get(one), self.names.get(other)) else {
            return Err(CalcFault::UnknownName { line: self.number });
        };
        let verdict = pairs.decide(machine, first, second)?;
        self.line.clear();
        self.line.put(b'\n');
        put_relation(&mut self.line, &verdict);
        self.line.put(other.letter());
        Ok(self.print(one)?)
    }

    /// Prints a tile across, and the edge there that leads back.
    fn print_across(&mut self, name: Name, across: &Address, back: u8) -> Result<(), AllocError>
        ensures { HasPrinted (across_line name.number (address_of across.now) back) self.old self.new result }
    {
        self.line.clear();
        self.line.put(b'\n');
        self.line.put_small(back);
        self.line.put(b' ');
        self.line.put_address(across);
        self.print(name)
    }

    /// Prints the line, after a name.
    fn print(&mut self, name: Name) -> Result<(), AllocError>
        requires room { length self.old.line + 2 < 1000 }
        ensures { HasPrinted (letter name.number ∷ blank ∷ self.old.line) self.old self.new result }
    {
        self.line.put(b' ');
        self.line.put(name.letter());
        self.text.extend_from_slice(self.line.as_bytes())
    }
}

/// Puts a level, or that there is none.
fn put_level(line: &mut Line, level: Option<u8>)
    requires room { length line.old < 1000 }
    ensures level { line.new ≡ level_text level ++ line.old }
    ensures at_most { length line.new ≤ length line.old + 4 }
{
    match level {
        Some(level) => line.put_small(level),
        None => line.put_text(b"none"),
    }
}
