//! A law of the built-in rules. A law is a function that does nothing; its contract is the theorem.
ghost use Rattle.builtin_rules.specs.declared.name.Name.{Name};
ghost use Rattle.builtin_rules.specs.AcceptedNames.{IsAcceptedName};

/// States that in the definition of each named rule all numbers exist, and the children fit edge to edge.
pub fn accepted_names_law()
    ensures { (name : Name) → IsAcceptedName name }
{}
