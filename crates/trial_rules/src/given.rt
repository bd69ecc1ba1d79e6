//! Rules typed as texts, and what comes of them.
use crate::wrong::Wrong;
use cyclo_points::order::Order;
use cyclo_points::point::Point;
use dissect_check::check::check;
use dissect_check::check_fault::CheckFault;
use rule_model::child::Child;
use rule_model::edition::Edition;
use rule_model::kind_row::KindRow;
use rule_model::rule::Rule;
use rule_model::type_row::TypeRow;
use std::alloc::{AllocError, Global};

/// A rule's text, a piece of it, and what replaces that piece; the rule as it is, if there is no piece.
pub type Given = (&'static str, &'static str, &'static str);

/// The number of a word.
fn number(word: &str) -> u8 {
    word.parse().unwrap_or(255)
}

/// The point of four coefficients.
fn point(text: &str) -> Point {
    let mut c = [i64::MAX; 4];
    for (coefficient, word) in c.iter_mut().zip(text.split(',')) {
        *coefficient = word.parse().unwrap_or(i64::MAX);
    }
    Point { c }
}

/// The numbers of a list.
fn numbers(alloc: Global, text: &str) -> Result<Vec<u8>, AllocError> {
    let mut numbers = Vec::new(alloc);
    if !text.is_empty() {
        for word in text.split(',') {
            numbers.push(number(word))?;
        }
    }
    Ok(numbers)
}

/// The points of a list.
fn points(alloc: Global, text: &str) -> Result<Vec<Point>, AllocError> {
    let mut points = Vec::new(alloc);
    for word in text.split(' ') {
        points.push(point(word))?;
    }
    Ok(points)
}

/// The children of a list.
fn children(alloc: Global, text: &str) -> Result<Vec<Child>, AllocError> {
    let mut children = Vec::new(alloc);
    for word in text.split(' ') {
        let (kind, rest) = word.split_once('.').unwrap_or((word, ""));
        let (turn, shift) = rest.split_once('@').unwrap_or((rest, ""));
        children.push(Child {
            kind: number(kind),
            turn: number(turn),
            shift: point(shift),
        })?;
    }
    Ok(children)
}

/// The kind of a text.
fn kind_row(alloc: Global, text: &str) -> Result<KindRow, AllocError> {
    let (vertices, rest) = text.split_once(" | ").unwrap_or((text, ""));
    let (edges, placed) = rest.split_once(" | ").unwrap_or((rest, ""));
    Ok(KindRow {
        vertices: points(alloc, vertices)?,
        edges: numbers(alloc, edges)?,
        children: children(alloc, placed)?,
    })
}

/// The edge types of a list.
fn type_rows(alloc: Global, text: &str) -> Result<Vec<TypeRow>, AllocError> {
    let mut rows = Vec::new(alloc);
    if !text.is_empty() {
        for word in text.split(' ') {
            let (mate, parts) = word.split_once(':').unwrap_or((word, ""));
            let parts = numbers(alloc, parts)?;
            let mate = number(mate);
            rows.push(TypeRow { mate, parts })?;
        }
    }
    Ok(rows)
}

/// The kinds of a text.
fn kind_rows(alloc: Global, text: &str) -> Result<Vec<KindRow>, AllocError> {
    let mut rows = Vec::new(alloc);
    if !text.is_empty() {
        for kind in text.split("; ") {
            rows.push(kind_row(alloc, kind)?)?;
        }
    }
    Ok(rows)
}

/// The order of this number.
fn order_of(text: &str) -> Order {
    match number(text) {
        4 => Order::Four,
        6 => Order::Six,
        8 => Order::Eight,
        _ => Order::Ten,
    }
}

/// The first section of a text, and the others.
fn section(text: &str) -> (&str, &str) {
    text.split_once("; ").unwrap_or((text, ""))
}

/// Returns the rule of a text, in an edition.
fn rule_of(alloc: Global, edition: Edition, text: &str) -> Result<Rule, AllocError> {
    let (order, rest) = section(text);
    let (factor, rest) = section(rest);
    let (glue, rest) = section(rest);
    let (types, kinds) = section(rest);
    Ok(Rule {
        edition,
        order: order_of(order),
        factor: point(factor),
        glue: numbers(alloc, glue)?,
        types: type_rows(alloc, types)?,
        kinds: kind_rows(alloc, kinds)?,
    })
}

/// Returns the rule of a text, in the first edition that has its order.
pub fn rule(alloc: Global, text: &str) -> Result<Rule, AllocError> {
    let edition = if text.starts_with("6;") {
        Edition::Two
    } else {
        Edition::One
    };
    rule_of(alloc, edition, text)
}

/// The fault for which a text is refused in an edition, if it is.
pub fn fault_of(
    alloc: Global,
    edition: Edition,
    text: &str,
) -> Result<Option<CheckFault>, AllocError> {
    Ok(check(alloc, rule_of(alloc, edition, text)?).err())
}

/// Returns true if a rule comes to this in an edition.
fn comes_to(
    alloc: Global,
    edition: Edition,
    given: &Given,
    wanted: Option<CheckFault>,
) -> Result<bool, AllocError> {
    let (text, piece, other) = given;
    if piece.is_empty() {
        return Ok(fault_of(alloc, edition, text)? == wanted);
    }
    let text = text.replace(alloc, piece, other)?;
    Ok(fault_of(alloc, edition, text.as_str())? == wanted)
}

/// Notes the first rule whose outcome in an edition is not the one expected of all of them.
pub fn note_others(
    alloc: Global,
    wrong: &mut Wrong,
    edition: Edition,
    rules: &[Given],
    wanted: Option<CheckFault>,
) {
    for (row, given) in rules.iter().enumerate() {
        let is_right = comes_to(alloc, edition, given, wanted).unwrap_or(false);
        wrong.note(given.0, row, is_right);
    }
}

/// Notes the first rule that an edition does not refuse for the fault in its row.
pub fn note_not_refused(
    alloc: Global,
    wrong: &mut Wrong,
    edition: Edition,
    rows: &[(Given, CheckFault)],
) {
    for (row, (given, fault)) in rows.iter().enumerate() {
        let is_right = comes_to(alloc, edition, given, Some(*fault)).unwrap_or(false);
        wrong.note(given.0, row, is_right);
    }
}
