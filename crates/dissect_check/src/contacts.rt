//! The contact tables of a kind.
ghost use Rattle.std.specs.Prelude.{◌≡◌, ◌≤◌, ◌<◌, ℕ, map, length, All, IfOk};
ghost use Rattle.theory_substitution.specs.Rule.{Child as TheChild, children_of};
ghost use Rattle.theory_substitution.specs.RuleParts.{edge_types};
ghost use Rattle.theory_addresses.specs.Search.{below};
ghost use Rattle.theory_edge_to_edge.specs.Contacts.{index_in, contact_by, contacts_of_child};
ghost use Rattle.cyclo_points.specs.Order.{NumberOf, points_of};
ghost use Rattle.edge_tables.specs.Views.{as_child_edge, as_contact};
ghost use Rattle.rule_model.specs.declared.rule.Rule.{Rule as ProgramRule};
ghost use Rattle.rule_model.specs.Views.{rule_of};
ghost use Rattle.dissect_check.specs.Views.{as_lie, IsInflated};
ghost use Rattle.dissect_check.specs.Parts.{LiesBelow, AreFew, AreParts};
ghost use Rattle.dissect_check.specs.Places.{IsKindOf};

use crate::inflated::Inflated;
use crate::lie::Lie;
use edge_tables::child_edge::ChildEdge;
use edge_tables::contact::Contact;
use rule_model::rule::Rule;
use std::alloc::Global;
use tile_shape::no_memory::NoMemory;

/// The number of a child edge among the parts of an edge, and how many these are where it is none.
fn number_among(parts: &[ChildEdge], name: ChildEdge) -> usize
    ensures number { result ≡ index_in (as_child_edge name) 0 (map as_child_edge parts.now) }
    ensures at_most_all { result ≤ length parts.now }
{
    for (number, part) in parts.iter().enumerate() {
        if *part == name {
            return number;
        }
    }
    parts.len()
}

/// What a child edge is, by where it lies and the parts of each edge of its parent.
fn contact_at(name: ChildEdge, lie: &Lie, parts: &[Vec<ChildEdge>]) -> Contact
    requires below { LiesBelow (length parts.now) lie.now }
    requires few { All AreFew parts.now }
    ensures { (rule : ProgramRule) (kind : ℕ) → AreParts rule kind parts.now
        → as_contact result ≡ contact_by (points_of rule.order) (rule_of rule) kind
        (as_child_edge name) (as_lie lie.now) }
{
    match lie {
        Lie::Inner { child, edge } => Contact::Inner {
            child: *child,
            edge: *edge,
        },
        Lie::Boundary { edge } => Contact::Outer {
            edge: *edge,
            part: number_among(&parts[usize::from(*edge)], name) as u8,
        },
        Lie::Loose => Contact::Outer { edge: 0, part: 0 },
    }
}

/// What each edge of a child is, in order.
fn contacts_of_child(
    alloc: Global,
    inflated: &Inflated,
    parts: &[Vec<ChildEdge>],
    child: usize,
) -> Result<Vec<Contact>, NoMemory>
    requires below { All (LiesBelow (length parts.now)) inflated.now.lies.items }
    requires few { All AreFew parts.now }
    ensures { (rule : ProgramRule) (kind : ℕ) → IsInflated rule kind inflated.now
        → AreParts rule kind parts.now → child < length (children_of (rule_of rule) kind)
        → IfOk result (λ contacts. map as_contact contacts.items
        ≡ contacts_of_child (points_of rule.order) (rule_of rule) kind child) }
{
    let mut contacts = Vec::new(alloc);
    for (edge, lie) in inflated.edges.iter().zip(&inflated.lies) {
        if usize::from(edge.child) == child {
            contacts.push(contact_at(edge.name(), lie, parts))?;
        }
    }
    Ok(contacts)
}

/// What each edge of each child of a kind is.
pub(crate) fn contacts_of_kind(
    alloc: Global,
    rule: &Rule,
    inflated: &Inflated,
    kind: usize,
    parts: &[Vec<ChildEdge>],
) -> Result<Vec<Vec<Contact>>, NoMemory>
    requires kind_exists { IsKindOf rule.now kind }
    requires inflated { IsInflated rule.now kind inflated.now }
    requires parts { AreParts rule.now kind parts.now }
    ensures { IfOk result (λ lists. map (λ list. map as_contact list.items) lists.items
        ≡ below (contacts_of_child (points_of rule.now.order) (rule_of rule.now) kind)
        (length (children_of (rule_of rule.now) kind))) }
{
    let mut lists = Vec::with_capacity(alloc, rule.child_count(kind))?;
    for child in 0..rule.child_count(kind) {
        lists.push(contacts_of_child(alloc, inflated, parts, child)?)?;
    }
    Ok(lists)
}

/// The type of each edge of a kind.
pub(crate) fn types_of_kind(alloc: Global, rule: &Rule, kind: usize) -> Result<Vec<u8>, NoMemory>
    requires { IsKindOf rule.now kind }
    ensures { IfOk result (λ types. types.items ≡ edge_types (rule_of rule.now) kind) }
{
    let mut types = Vec::new(alloc);
    types.extend_from_slice(&rule.kinds[kind].edges)?;
    Ok(types)
}

/// The kind of each child of a kind.
pub(crate) fn kinds_of_children(
    alloc: Global,
    rule: &Rule,
    kind: usize,
) -> Result<Vec<u8>, NoMemory>
    requires { IsKindOf rule.now kind }
    ensures { IfOk result (λ kinds. kinds.items
        ≡ map (λ (child : TheChild (NumberOf rule.now.order)). child.kind)
        (children_of (rule_of rule.now) kind)) }
{
    let row = &rule.kinds[kind];
    Ok(row.children.iter().map(|child| child.kind).collect(alloc)?)
}
