//! Laws of pairs.
ghost use Rattle.std.specs.Prelude.{◌≡◌, ◌↔◌, ℕ, List};
ghost use Rattle.theory_addresses.specs.Address.{Address, Fits};
ghost use Rattle.theory_addresses.specs.Coherent.{IsCoherent};
ghost use Rattle.theory_addresses.specs.Search.{IsAmong};
ghost use Rattle.theory_addresses.specs.Tables.{Tables, child_kinds};
ghost use Rattle.theory_addresses.specs.Touch.{Touches};
ghost use Rattle.pair_machine.specs.Between.{Pair, IsBetween};
ghost use Rattle.pair_machine.specs.Nodes.{IsNode};
ghost use Rattle.pair_machine.specs.Reading.{pairs_read};

/// States that the pairs that are left when two addresses are read from coarse to fine are those that touch.
pub fn pairs_read_law()
    ensures { (t : Tables) (a b : Address) (e f : ℕ) → IsCoherent t → Fits (child_kinds t) a
        → Fits (child_kinds t) b → IsAmong (record { mine = e; theirs = f })
        (pairs_read t a.digits b.digits) ↔ Touches t a e b f }
{}

/// States that exactly one list is the list of all pairs that touch.
pub fn one_list_law()
    ensures { (t : Tables) (a b : Address) (ps qs : List Pair) → IsBetween t a b ps → IsBetween t a b qs
        → ps ≡ qs }
{}

/// States that each pair on the way is a node.
pub fn nodes_read_law()
    ensures { (t : Tables) (a b : Address) (e f : ℕ) → IsCoherent t → Fits (child_kinds t) a
        → Fits (child_kinds t) b → IsAmong (record { mine = e; theirs = f })
        (pairs_read t a.digits b.digits) → IsNode t
        (record { kind = a.kind; edge = e; other = b.kind; back = f }) }
{}
