//! The way up from an edge, to where it is another child's edge or to the top.
ghost use Rattle.std.specs.Prelude.{◌≡◌, ◌+◌, ◌*◌, ◌^◌, ◌<◌, ◌≤◌, ℕ, length, map, IsSome, IfOk, IfErr, OnOk};
ghost use Rattle.theory_addresses.specs.Address.{Fits};
ghost use Rattle.theory_addresses.specs.Coherent.{IsCoherent};
ghost use Rattle.theory_addresses.specs.Tables.{child_kinds, type_of};
ghost use Rattle.tile_shape.specs.Views.{step_of};
ghost use Rattle.transducer_core.specs.Climbing.{EndsClimb, GoesUp};
ghost use Rattle.transducer_core.specs.Merged.{HasEntry};

use crate::blocks::Blocks;
use crate::flat_table::FlatTable;
use crate::spread::cell;
use edge_tables::steps::Steps;
use std::sync::ledger::Ledger;
use tile_shape::step::Step;

/// The level at which an edge is also another child's edge: the cell of the digit there, and the word of the
/// contact. That word names the child and its edge.
#[derive(Clone, Copy)]
pub(crate) struct Meeting {
    pub(crate) level: usize,
    pub(crate) at: usize,
    pub(crate) word: u32,
}

/// Goes one level up, from an edge to the parent's edge on which it lies, and keeps the number of its part
/// there. Err if it is another child's edge.
#[inline]
fn rise<L: Ledger>(
    contacts: Blocks<'_>,
    digit: Step,
    level: usize,
    own: usize,
    parts: &mut [u8; 64],
    steps: &mut Steps<L>,
) -> Result<usize, Meeting>
    requires level { level < 64 }
    requires exists { (word : ℕ) × HasEntry contacts.starts.now contacts.words.now
        (256 * digit.parent + digit.child) own word }
    ensures outer { IfOk result (λ next. (word : ℕ)
        × HasEntry contacts.entry.starts.now contacts.entry.words.now (256 * digit.parent + digit.child) own
        word
        × GoesUp parts.old level word next parts.new) }
    ensures inner { IfErr result (λ m. (m.level ≡ level) × (m.at ≡ 256 * digit.parent + digit.child)
        × HasEntry contacts.entry.starts.now contacts.entry.words.now (256 * digit.parent + digit.child) own
        m.word × (2 ^ 16 ≤ m.word)) }
    ensures unchanged { IfErr result (λ _. parts.new ≡ parts.old) }
    ensures one_step { steps.new ≡ steps.old + 1 }
{
    let at = cell(digit.parent, digit.child);
    let word = contacts.look_up(at, own, steps);
    if word < 65536 {
        parts[level] = (word % 256) as u8;
        Ok((word / 256) as usize)
    } else {
        Err(Meeting { level, at, word })
    }
}

/// Climbs from an edge to the top, and returns the top's edge on which it lies. It keeps the number of the
/// part in which the edge lies at each level on the way. Err at the first level at which it is another
/// child's edge.
pub(crate) fn climb<L: Ledger>(
    tables: &FlatTable,
    kind: u8,
    digits: &[Step],
    edge: u8,
    parts: &mut [u8; 64],
    steps: &mut Steps<L>,
) -> Result<u8, Meeting>
    requires coherent { IsCoherent tables.now }
    requires fits { Fits (child_kinds tables.now) (record { kind = kind; digits = map step_of digits.now }) }
    requires no_deeper { length digits.now ≤ 64 }
    requires edge_exists { IsSome (type_of tables.now kind edge) }
    ensures ends { EndsClimb tables.now (record { kind = kind; digits = map step_of digits.now }) edge
        parts.new result }
    ensures within { IfErr result (λ m. m.level < length digits.now) }
    ensures a_step_a_level { OnOk result (steps.new ≤ steps.old + length digits.now) }
    ensures a_step_more_where_it_meets { IfErr result (λ m. steps.new ≤ steps.old + m.level + 1) }
{
    let contacts = tables.contacts();
    let _kind = kind;
    let depth = digits.len();
    let mut own = usize::from(edge);
    let mut level = 0usize;
    if depth % 2 == 1 {
        own = rise(contacts, digits[0], 0, own, parts, steps)?;
        level = 1;
    }
    while level < depth {
        own = rise(contacts, digits[level], level, own, parts, steps)?;
        own = rise(contacts, digits[level + 1], level + 1, own, parts, steps)?;
        level += 2;
    }
    Ok(own as u8)
}
