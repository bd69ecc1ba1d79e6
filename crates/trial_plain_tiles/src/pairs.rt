//! The verdict of the pair machine on two tiles.
ghost use Rattle.std.specs.Prelude.{◌≡◌};
ghost use Rattle.rule_model.specs.Tiling.{tiling_of, contacts};

use pair_machine::edge_pair::EdgePair;
use pair_machine::machine::PairMachine;
use pair_machine::verdict::Verdict;
use tile_place::machine::Machine;
use tile_shape::address::Address;

/// Returns the verdict of the pair machine on two tiles, or None if an address does not fit.
pub fn decided(machine: &Machine, pairs: &PairMachine, a: &Address, b: &Address) -> Option<Verdict>
    requires its_tables { pairs.now ≡ contacts (tiling_of machine.now) }
{
    let checked = machine.checked();
    let uses = checked.uses();
    let _same_children = checked.tables();
    if !uses.fits(a) || !uses.fits(b) {
        return None;
    }
    Some(pairs.decide(a, b))
}

/// Returns the pairs of edges that a verdict names.
pub fn named(verdict: &Verdict) -> &[EdgePair] {
    match verdict {
        Verdict::Beside { pairs } => pairs.as_slice(),
        _ => &[],
    }
}
