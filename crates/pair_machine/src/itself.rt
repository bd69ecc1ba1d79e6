//! Children that meet themselves: no place in the plane allows it, but tables that fit together may.
ghost use Rattle.std.specs.Prelude.{◌≡◌, ◌↔◌, ◌<◌, ℕ, length, IsSome, IsTrue};
ghost use Rattle.theory_addresses.specs.Coherent.{IsCoherent};
ghost use Rattle.theory_addresses.specs.Contact.{inner};
ghost use Rattle.theory_addresses.specs.Tables.{child_kind_of};
ghost use Rattle.edge_tables.specs.Views.{as_contact};
ghost use Rattle.pair_machine.specs.Itself.{MeetsItself, HasMeeting, SomeMeetsItself};

use crate::looks::contact;
use edge_tables::contact::Contact;
use edge_tables::tables::Tables;

/// Returns true if a contact is an inner one with this child.
fn is_with(contact: Contact, child: u8) -> bool
    ensures { IsTrue result ↔ ((back : ℕ) × (as_contact contact ≡ inner child back)) }
{
    match contact {
        Contact::Inner {
            child: other,
            edge: _,
        } => other == child,
        Contact::Outer { edge: _, part: _ } => false,
    }
}

/// Returns true if a child meets itself.
fn meets_itself(tables: &Tables, kind: u8, child: u8) -> bool
    requires coherent { IsCoherent tables.now }
    requires child { IsSome (child_kind_of tables.now kind child) }
    ensures { IsTrue result ↔ MeetsItself tables.now kind child }
{
    for edge in 0..tables.edges(tables.child_kind(kind, child)) {
        if is_with(contact(tables, kind, child, edge), child) {
            return true;
        }
    }
    false
}

/// Returns true if some child of a kind meets itself.
fn has_meeting(tables: &Tables, kind: u8) -> bool
    requires coherent { IsCoherent tables.now }
    requires kind { kind < length tables.now.kinds }
    ensures { IsTrue result ↔ HasMeeting tables.now kind }
{
    for child in 0..tables.children(kind) {
        if meets_itself(tables, kind, child) {
            return true;
        }
    }
    false
}

/// Returns true if some child meets itself.
pub(crate) fn some_meets_itself(tables: &Tables) -> bool
    ensures { IsTrue result ↔ SomeMeetsItself tables.now }
{
    for kind in 0..tables.kinds() {
        if has_meeting(tables, kind) {
            return true;
        }
    }
    false
}
