//! Laws of traces, of touch, and of crossings.
ghost use Rattle.std.specs.Prelude.{◌≡◌, ℕ, List, IsSome, IsNone, IfSome};
ghost use Rattle.theory_addresses.specs.Across.{LiesOn};
ghost use Rattle.theory_addresses.specs.Address.{Address as TheAddress, Fits};
ghost use Rattle.theory_addresses.specs.Coherent.{IsCoherent};
ghost use Rattle.theory_addresses.specs.Tables.{Tables, child_kinds, type_of};
ghost use Rattle.theory_addresses.specs.Touch.{Touches};
ghost use Rattle.theory_addresses.specs.Trace.{Cut, HasTrace};
ghost use Rattle.tile_shape.specs.Views.{address_of};

use crate::crossing::Crossing;
use crate::transducer::Transducer;
use edge_tables::steps::Steps;
use std::sync::ledger::Ledger;
use tile_shape::address::Address;

/// Crosses an edge and goes back, and states that this leads home. It returns None if and only if the edge
/// lies on the supertile's own edge.
pub fn return_law<L: Ledger>(
    transducer: &Transducer,
    addr: &Address,
    edge: u8,
    steps: &mut Steps<L>,
) -> Option<Crossing>
    requires fits { Fits (child_kinds transducer.now) (address_of addr.now) }
    requires edge_exists { IsSome (type_of transducer.now addr.now.kind edge) }
    ensures same_tile { IfSome result (λ x. address_of x.addr ≡ address_of addr.now) }
    ensures same_edge { IfSome result (λ x. x.edge ≡ edge) }
    ensures none_when { (top part : ℕ) → LiesOn transducer.now (address_of addr.now) edge top part
        → IsNone result }
    ensures none_on_boundary { IsNone result → (top : ℕ) × (part : ℕ)
        × LiesOn transducer.now (address_of addr.now) edge top part }
{
    match transducer.step_across(addr, edge, steps) {
        Ok(there) => match transducer.step_across(&there.addr, there.edge, steps) {
            Ok(home) => Some(home),
            Err(_) => None,
        },
        Err(_) => None,
    }
}

/// States that touch is mutual.
pub fn touch_law()
    ensures { (t : Tables) (a b : TheAddress) (e f : ℕ) → IsCoherent t → Fits (child_kinds t) a
        → Fits (child_kinds t) b → IsSome (type_of t a.kind e) → Touches t a e b f → Touches t b f a e }
{}

/// States that an edge has at most one trace.
pub fn trace_law()
    ensures { (t : Tables) (a : TheAddress) (e top other : ℕ) (cuts others : List Cut)
        → HasTrace t a e top cuts → HasTrace t a e other others → (top ≡ other) × (cuts ≡ others) }
{}

/// States that an edge with a trace touches no other.
pub fn boundary_law()
    ensures { (t : Tables) (a b : TheAddress) (e f top : ℕ) (cuts : List Cut) → IsCoherent t
        → Fits (child_kinds t) a → Fits (child_kinds t) b → IsSome (type_of t a.kind e)
        → HasTrace t a e top cuts → Touches t a e b f → ⊥ }
{}
