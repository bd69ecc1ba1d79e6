//! Entries of tables, and their blocks, as words.
ghost use Rattle.std.specs.Prelude.{◌≡◌, ◌<◌, ◌++◌, ℕ, List, length, map, slice_get, Some, OnOk};
ghost use Rattle.edge_tables.specs.Views.{as_contact, as_child_edge};
ghost use Rattle.transducer_core.specs.RowBlocks.{blocks_of};
ghost use Rattle.transducer_core.specs.Words.{word_of_contact, contact_of_word, word_of_part, part_of_word, contact_words, part_words};

use edge_tables::child_edge::ChildEdge;
use edge_tables::contact::Contact;
use edge_tables::kind_rows::KindRows;
use tile_shape::no_memory::NoMemory;

/// Returns the word of an edge of a child.
fn contact_word(contact: Contact) -> u32
    ensures { result ≡ word_of_contact (as_contact contact) }
{
    match contact {
        Contact::Inner { child, edge } => 65536 + u32::from(edge) * 256 + u32::from(child),
        Contact::Outer { edge, part } => u32::from(edge) * 256 + u32::from(part),
    }
}

/// Returns the word of a part of an edge.
fn part_word(part: ChildEdge) -> u32
    ensures { result ≡ word_of_part (as_child_edge part) }
{
    u32::from(part.edge) * 256 + u32::from(part.child)
}

/// Returns the contact of this word.
pub(crate) fn contact_in(word: u32) -> Contact
    ensures { as_contact result ≡ contact_of_word word }
{
    let number = (word % 256) as u8;
    let edge = (word / 256 % 256) as u8;
    if word < 65536 {
        let part = number;
        Contact::Outer { edge, part }
    } else {
        let child = number;
        Contact::Inner { child, edge }
    }
}

/// Returns the part of this word.
pub(crate) fn part_in(word: u32) -> ChildEdge
    ensures { as_child_edge result ≡ part_of_word word }
{
    ChildEdge {
        child: (word % 256) as u8,
        edge: (word / 256 % 256) as u8,
    }
}

/// Which blocks of a kind: the contacts of its children, or the parts of its edges.
#[derive(Clone, Copy)]
pub(crate) enum Which {
    Contacts,
    Parts,
}

/// Appends a contact block as words.
fn write_contacts(words: &mut Vec<u32>, block: &Vec<Contact>) -> Result<(), NoMemory>
    ensures { OnOk result (words.new.items ≡ words.old.items
        ++ contact_words (map as_contact block.now.items)) }
{
    for contact in block {
        words.push(contact_word(*contact))?;
    }
    Ok(())
}

/// Appends a part block as words, in reverse order.
fn write_parts(words: &mut Vec<u32>, block: &Vec<ChildEdge>) -> Result<(), NoMemory>
    ensures { OnOk result (words.new.items ≡ words.old.items
        ++ part_words (map as_child_edge block.now.items)) }
{
    let count = block.len();
    for done in 0..count {
        let part = block[count - 1 - done];
        words.push(part_word(part))?;
    }
    Ok(())
}

/// Returns the number of blocks of a kind.
pub(crate) fn block_count(row: &KindRows, which: Which) -> usize
    ensures { result ≡ length (blocks_of which row.now) }
{
    match which {
        Which::Contacts => row.contacts.len(),
        Which::Parts => row.parts.len(),
    }
}

/// Appends a block of a kind as words.
pub(crate) fn write_block(
    words: &mut Vec<u32>,
    row: &KindRows,
    which: Which,
    number: usize,
) -> Result<(), NoMemory>
    requires { number < length (blocks_of which row.now) }
    ensures { OnOk result ((block : List ℕ) × (slice_get (blocks_of which row.now) number ≡ Some block)
        × (words.new.items ≡ words.old.items ++ block)) }
{
    match which {
        Which::Contacts => {
            let block = &row.contacts[number];
            write_contacts(words, block)
        }
        Which::Parts => {
            let block = &row.parts[number];
            write_parts(words, block)
        }
    }
}
