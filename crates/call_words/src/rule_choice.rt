//! The choice that the value of the key `rule` makes.
ghost use Rattle.std.specs.Prelude.{◌≡◌};
ghost use Rattle.call_words.specs.Choices.{choice_in, name_in, builtin_name};

use builtin_rules::name::Name;

/// A built-in rule, or the rule of a file.
#[derive(Clone, Copy, Debug, PartialEq, Eq)]
pub enum RuleChoice {
    /// The built-in rule with this name.
    Builtin { name: Name },
    /// The rule of the file that is read from the source.
    File,
}

impl RuleChoice {
    /// Returns the name of the rule, if it is a built-in one.
    pub fn name(self) -> Option<Name>
        ensures { result ≡ builtin_name self }
    {
        match self {
            RuleChoice::Builtin { name } => Some(name),
            RuleChoice::File => None,
        }
    }
}

/// Returns the built-in rule that a text names.
pub fn name_in(text: &str) -> Option<Name>
    ensures { result ≡ name_in text.now }
{
    match text {
        "chair" => Some(Name::Chair),
        "p2" => Some(Name::P2),
        "p3" => Some(Name::P3),
        "ab" => Some(Name::AmmannBeenker),
        "halfhex" => Some(Name::HalfHex),
        _ => None,
    }
}

/// Returns the choice of a text: a built-in rule by name, or the rule of a file for `-`.
pub fn choice_in(text: &str) -> Option<RuleChoice>
    ensures { result ≡ choice_in text.now }
{
    if text == "-" {
        return Some(RuleChoice::File);
    }
    let name = name_in(text)?;
    Some(RuleChoice::Builtin { name })
}
