//! The outcome of a rule file.
use crate::crowded::crowded;
use crate::trials::trials;
use arrayvec::ArrayString;
use builtin_rules::builtin::builtin;
use builtin_rules::name::Name;
use call_notes::rule_fault::RuleFault;
use call_notes::rule_fault_words::put_rule_fault;
use dissect_check::check::check;
use dissect_check::check_fault::CheckFault;
use rule_model::checked::Checked;
use rule_text::reading::{LONGEST_FILE, read_rule};
use rule_text::writing::{write_rule, written_and_read};
use std::alloc::{AllocError, Global};
use tile_shape::no_memory::NoMemory;

/// Why a file is refused.
#[derive(Clone, Copy, Debug, PartialEq, Eq)]
enum Refused {
    TooLong,
    Rule(RuleFault),
}

/// Reads the rule of a file, and checks it.
fn checked(alloc: Global, bytes: &[u8]) -> Result<Checked, Refused> {
    if bytes.len() > LONGEST_FILE {
        return Err(Refused::TooLong);
    }
    let rule = match read_rule(alloc, bytes) {
        Ok(rule) => rule,
        Err(fault) => return Err(Refused::Rule(RuleFault::Text(fault))),
    };
    check(alloc, rule).map_err(|fault: CheckFault| Refused::Rule(RuleFault::Check(fault)))
}

/// Returns true if a rule's own text is read back to a rule with the same text.
fn is_read_back(alloc: Global, rule: &Checked, text: &str) -> Result<bool, NoMemory> {
    let back = match written_and_read(alloc, rule.rule()) {
        Ok(back) => back,
        Err(_) => return Err(NoMemory),
    };
    let again = match check(alloc, back) {
        Ok(again) => again,
        Err(_) => return Ok(false),
    };
    let printed = write_rule(alloc, again.rule())?;
    Ok(printed.as_str() == text)
}

/// Returns the line of an accepted rule.
fn accepted(alloc: Global, rule: Checked, bytes: &[u8]) -> Result<String, NoMemory> {
    let text = write_rule(alloc, rule.rule())?;
    let back = if is_read_back(alloc, &rule, text.as_str())? {
        "the same when it is read back"
    } else {
        "ANOTHER when it is read back"
    };
    let order = rule.rule().order.n();
    let kinds = rule.rule().kind_count();
    let types = rule.rule().type_count();
    let layout = if text.as_bytes() == bytes {
        ", as it is printed"
    } else {
        ""
    };
    let tried = trials(alloc, rule)?;
    Ok(format!(in alloc;
        "accepted order {order} kinds {kinds} types {types}, {back}{layout}{tried}"
    )?)
}

/// Returns the line of a refused file.
fn refusal(alloc: Global, fault: Refused) -> Result<String, NoMemory> {
    match fault {
        Refused::TooLong => Ok(format!(in alloc; "refused TooLong")?),
        Refused::Rule(fault) => {
            let mut line = ArrayString::new();
            put_rule_fault(&mut line, fault);
            Ok(format!(in alloc; "refused{}", line.as_str())?)
        }
    }
}

/// Returns the line of a file.
pub fn outcome(alloc: Global, bytes: &[u8]) -> Result<String, NoMemory> {
    match checked(alloc, bytes) {
        Ok(rule) => accepted(alloc, rule, bytes),
        Err(fault) => refusal(alloc, fault),
    }
}

/// Returns the line of a file whose rule puts very many tiles around a vertex.
pub fn crowded_outcome(alloc: Global, bytes: &[u8]) -> Result<String, NoMemory> {
    match checked(alloc, bytes) {
        Ok(rule) => crowded(alloc, rule),
        Err(fault) => refusal(alloc, fault),
    }
}

/// Returns true if the file is the text that a built-in rule is printed as.
pub fn is_printed(alloc: Global, name: Name, bytes: &[u8]) -> Result<bool, NoMemory> {
    let rule = builtin(alloc, name)?;
    let text = write_rule(alloc, rule.rule())?;
    Ok(text.as_bytes() == bytes)
}
