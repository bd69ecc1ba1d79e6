//! The relation of two tiles, written into a line.
ghost use Rattle.std.specs.Prelude.{◌≡◌, ◌+◌, ◌*◌, ◌<◌, ◌≤◌, ◌++◌, length, map};
ghost use Rattle.pair_machine.specs.Views.{as_pair};
ghost use Rattle.addr_calc.specs.Printed.{pair_text, pairs_text, relation_text};
ghost use Rattle.addr_calc.specs.Views.{relation_of};

use layer_api::line::Line;
use pair_machine::edge_pair::EdgePair;
use pair_machine::verdict::Verdict;

/// Puts how two tiles lie to each other into a line.
pub fn put_relation(line: &mut Line, verdict: &Verdict)
    requires room { length line.old < 1000 }
    ensures relation { line.new ≡ relation_text (relation_of verdict.now) ++ line.old }
    ensures at_most { length line.new ≤ length line.old + 96 }
{
    match verdict {
        Verdict::Strangers => line.put_text(b" none"),
        Verdict::Same => line.put_text(b" same"),
        Verdict::Apart => line.put_text(b" apart"),
        Verdict::Beside { pairs } => put_pairs(line, pairs.as_slice()),
    }
}

/// Puts pairs of edges, a blank before each.
fn put_pairs(line: &mut Line, pairs: &[EdgePair])
    requires few { length pairs.now ≤ 12 }
    requires room { length line.old < 1000 }
    ensures pairs { line.new ≡ pairs_text (map as_pair pairs.now) ++ line.old }
    ensures at_most { length line.new ≤ length line.old + 8 * length pairs.now }
{
    let mut left = pairs.len();
    while left > 0 {
        left -= 1;
        put_pair(line, pairs[left]);
        line.put(b' ');
    }
}

/// Puts a pair of edges.
fn put_pair(line: &mut Line, pair: EdgePair)
    requires room { length line.old < 1100 }
    ensures pair { line.new ≡ pair_text (as_pair pair) ++ line.old }
    ensures at_most { length line.new ≤ length line.old + 7 }
{
    line.put_small(pair.theirs);
    line.put(b'/');
    line.put_small(pair.mine);
}
