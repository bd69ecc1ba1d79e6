//! What a line of a script asks for.
ghost use Rattle.std.specs.Prelude.{ℕ, ◌∷◌};
ghost use Rattle.tile_shape.specs.Decimal.{number_up_to};
ghost use Rattle.tile_shape.specs.Words.{word_by, some_text};
ghost use Rattle.addr_calc.specs.Reading.{name_in_field, no_word, let_in, show_in, place_in, across_in, two_names_in, command_in, statement_in};
ghost use Rattle.addr_calc.specs.Statement.{Statement as TheStatement};
ghost use Rattle.addr_calc.specs.Views.{FieldsAnswerAs, any_in, words_left, statement_of};

use crate::cut::cut;
use crate::name::Name;
use tile_shape::decimal::read_number;

/// What a line asks for.
#[derive(Clone, Copy)]
pub enum Statement<'a> {
    /// Nothing: the line is empty or a comment.
    Nothing,
    /// Binds a name to the address of this text.
    Let { name: Name, text: &'a [u8] },
    /// Prints the address of a name.
    Show { name: Name },
    /// Prints where the tile of a name lies.
    Place { name: Name },
    /// Crosses this edge of the tile of a name, and binds the other name to the tile across.
    Across { name: Name, edge: u8, other: Name },
    /// Prints the level from which on the addresses of two names agree.
    Common { one: Name, other: Name },
    /// Prints by which edges the tiles of two names meet.
    Pair { one: Name, other: Name },
}

/// Reads the statement of a line. Fields have single blanks between them.
///
/// # Errors
///
/// The position, counted from 0, of the first field that is malformed or one too many; the number of fields
/// if one is missing.
#[tactic(auto, unfolding(crate::specs::Reading::statement_in))]
pub fn statement_in(line: &[u8]) -> Result<Statement<'_>, u8>
    ensures { FieldsAnswerAs statement_of result (statement_in line.now) }
{
    match line {
        [] | [b'#', ..] => Ok(Statement::Nothing),
        _ => {
            let (command, words) = cut(line, b' ');
            command_in(command, words)
        }
    }
}

/// Reads the statement of a command from the fields after it.
#[tactic(auto, unfolding(crate::specs::Reading::command_in))]
fn command_in<'a>(command: &[u8], words: Option<&'a [u8]>) -> Result<Statement<'a>, u8>
    ensures { FieldsAnswerAs statement_of result (command_in (command.now ∷ words_left words.entry)) }
{
    if command == b"let".as_slice() {
        let_in(words)
    } else if command == b"show".as_slice() {
        show_in(words)
    } else if command == b"place".as_slice() {
        place_in(words)
    } else if command == b"across".as_slice() {
        across_in(words)
    } else if command == b"common".as_slice() {
        let (one, other) = two_names_in(words)?;
        Ok(Statement::Common { one, other })
    } else if command == b"pair".as_slice() {
        let (one, other) = two_names_in(words)?;
        Ok(Statement::Pair { one, other })
    } else {
        Err(0)
    }
}

/// `let name address`.
#[tactic(auto, unfolding(crate::specs::Reading::let_in))]
fn let_in(words: Option<&[u8]>) -> Result<Statement<'_>, u8>
    ensures { FieldsAnswerAs statement_of result (let_in (words_left words.entry)) }
{
    let (name, words) = name_at(1, words)?;
    let (text, words) = text_at(2, words)?;
    end_at(3, words)?;
    Ok(Statement::Let { name, text })
}

/// `show name`.
#[tactic(auto, unfolding(crate::specs::Reading::show_in))]
fn show_in(words: Option<&[u8]>) -> Result<Statement<'_>, u8>
    ensures { FieldsAnswerAs statement_of result (show_in (words_left words.entry)) }
{
    let (name, words) = name_at(1, words)?;
    end_at(2, words)?;
    Ok(Statement::Show { name })
}

/// `place name`.
#[tactic(auto, unfolding(crate::specs::Reading::place_in))]
fn place_in(words: Option<&[u8]>) -> Result<Statement<'_>, u8>
    ensures { FieldsAnswerAs statement_of result (place_in (words_left words.entry)) }
{
    let (name, words) = name_at(1, words)?;
    end_at(2, words)?;
    Ok(Statement::Place { name })
}

/// `across name edge name`.
#[tactic(auto, unfolding(crate::specs::Reading::across_in))]
fn across_in(words: Option<&[u8]>) -> Result<Statement<'_>, u8>
    ensures { FieldsAnswerAs statement_of result (across_in (words_left words.entry)) }
{
    let (name, words) = name_at(1, words)?;
    let (edge, words) = edge_at(2, words)?;
    let (other, words) = name_at(3, words)?;
    end_at(4, words)?;
    Ok(Statement::Across { name, edge, other })
}

/// Reads the two names of a statement about two tiles.
#[tactic(auto, unfolding(crate::specs::Reading::two_names_in))]
fn two_names_in(words: Option<&[u8]>) -> Result<(Name, Name), u8>
    ensures { (asks : ℕ → ℕ → TheStatement)
        → FieldsAnswerAs (λ names. asks names.0.number names.1.number) result
        (two_names_in asks (words_left words.entry)) }
{
    let (one, words) = name_at(1, words)?;
    let (other, words) = name_at(2, words)?;
    end_at(3, words)?;
    Ok((one, other))
}

/// Reads the name in the first field, and returns the fields after it.
fn name_at(place: u8, words: Option<&[u8]>) -> Result<(Name, Option<&[u8]>), u8>
    ensures { FieldsAnswerAs (λ found. (found.0.number, words_left found.1)) result
        (word_by name_in_field place (words_left words.entry)) }
{
    let (word, words) = word_at(place, words)?;
    let name = Name::named(word).ok_or(place)?;
    Ok((name, words))
}

/// Reads the number of an edge in the first field.
fn edge_at(place: u8, words: Option<&[u8]>) -> Result<(u8, Option<&[u8]>), u8>
    ensures { FieldsAnswerAs (λ found. (found.0, words_left found.1)) result
        (word_by (number_up_to 255) place (words_left words.entry)) }
{
    let (word, words) = word_at(place, words)?;
    let number = read_number(word, 255).ok_or(place)?;
    Ok((number as u8, words))
}

/// Reads the first field, if it is not empty.
fn text_at(place: u8, words: Option<&[u8]>) -> Result<(&[u8], Option<&[u8]>), u8>
    ensures { FieldsAnswerAs (λ found. (found.0.now, words_left found.1)) result
        (word_by some_text place (words_left words.entry)) }
{
    let (word, words) = word_at(place, words)?;
    if word.is_empty() {
        return Err(place);
    }
    Ok((word, words))
}

/// Reads the first field, whatever it is.
fn word_at(place: u8, words: Option<&[u8]>) -> Result<(&[u8], Option<&[u8]>), u8>
    ensures { FieldsAnswerAs (λ found. (found.0.now, words_left found.1)) result
        (word_by any_in place (words_left words.entry)) }
{
    match words {
        Some(text) => Ok(cut(text, b' ')),
        None => Err(place),
    }
}

/// Tests that no field is left. Err has the position of the first one too many.
fn end_at(place: u8, words: Option<&[u8]>) -> Result<(), u8>
    ensures { (s : TheStatement) → FieldsAnswerAs (λ _. s) result (no_word s place (words_left words.entry)) }
{
    match words {
        Some(_) => Err(place),
        None => Ok(()),
    }
}
