//! The calculator.
ghost use Rattle.std.specs.Prelude.{◌≡◌, ◌<◌, ◌≤◌, Ok, Err, IfOk, IfErr, length};
ghost use Rattle.std.specs.declared.result.Result.{Result};
ghost use Rattle.rule_model.specs.Tiling.{tiling_of};
ghost use Rattle.addr_calc.specs.Script.{Outcome, IsOutcome, LineOrNoMemory, AnswersScript, IsOrNoMemory, outcome_of, longest_script};

use crate::calc_fault::CalcFault;
use crate::calculation::Calculation;
use crate::cut::cut;
use crate::laws::one_answer_law;
use crate::pairs::Pairs;
use edge_tables::steps::Steps;
use std::alloc::Global;
use std::marker::Brand;
use std::sync::ledger::{Blank, Ledger};
use tile_place::machine::Machine;

/// Runs a script, and returns its text.
///
/// - `machine` is that of the rule whose tiles the script speaks of.
/// - `script` has lines, each ended by a newline; the last newline may be missing. Empty lines and lines that
///   begin with `#` do nothing, but are counted. Fields have single blanks between them, and names are the
///   letters `a` to `z`. `let a 0:1/0` binds a name to an address, `show a` prints it, and `place a` prints
///   where its tile lies in the supertile. `across a 3 b` binds `b` to the tile across edge 3 and prints it.
///   `common a b` prints the level from which on two addresses agree, and `pair a b` by which edges two tiles
///   meet.
/// - `alloc` provides all memory.
///
/// # Errors
///
/// The fault of the first line that has one, counted from 1. `NoMemory` may come instead of any result.
pub fn calc(alloc: Global, machine: &Machine, script: &[u8]) -> Result<Vec<u8>, CalcFault>
    requires { length script.now ≤ longest_script }
    // The text is what the script prints; a fault is that of the first line that has one.
    ensures ran { IfOk result (λ text. IsOutcome (tiling_of machine.now) script.now (Ok text.items)) }
    ensures fault { IfErr result (LineOrNoMemory (λ fault. IsOutcome (tiling_of machine.now) script.now
        (Err fault))) }

    // The outcome of the script is returned, unless memory runs out.
    ensures answered { (outcome : Outcome) → IsOutcome (tiling_of machine.now) script.now outcome
        → IsOrNoMemory (outcome_of result) outcome }
{
    // The law by which the outcome of a script is what is returned, and what it requires of the child kinds.
    one_answer_law();
    let _limits = machine.checked().uses().kinds();
    calculated::<Brand>(alloc, machine, script, Blank::new(1))
}

/// Like [`calc`]. A counter that is made here, and that nobody reads, counts the steps of the crossings.
fn calculated<L: Ledger>(
    alloc: Global,
    machine: &Machine,
    script: &[u8],
    blank: Blank,
) -> Result<Vec<u8>, CalcFault>
    requires short { length script.now ≤ longest_script }
    requires name { blank.name ≡ L.name }
    requires parts { blank.parts ≡ L.parts }
    requires some { 0 < blank.parts }
    ensures { AnswersScript (tiling_of machine.now) script.now result }
{
    let mut steps = Steps::<L>::new(blank);
    let mut calculation = Calculation::new(alloc)?;
    let mut pairs = Pairs::new(alloc);
    let mut left = Some(script);
    while let Some(text) = left {
        let (line, rest) = cut(text, b'\n');
        calculation.run(machine, &mut pairs, line, &mut steps)?;
        left = rest;
    }
    Ok(calculation.into_text())
}
