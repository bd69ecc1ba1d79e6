//! Laws of contact tables. A law is a function that does nothing; its contract is the theorem.
ghost use Rattle.std.specs.Prelude.{◌≡◌, true};
ghost use Rattle.theory_addresses.specs.Coherent.{IsCoherent};
ghost use Rattle.theory_addresses.specs.CoherenceTest.{coherence_test};
ghost use Rattle.theory_addresses.specs.Tables.{Tables};

/// Tables that pass the test are coherent.
pub fn coherence_law()
    ensures { (t : Tables) → coherence_test t ≡ true → IsCoherent t }
{}
