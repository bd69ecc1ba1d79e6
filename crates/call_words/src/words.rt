//! The arguments of a command line: a command, then `key=value` arguments in any order. In the code they are
//! *words*.
ghost use Rattle.std.specs.Prelude.{◌≡◌, true, is_some};
ghost use Rattle.std.specs.List.{find};
ghost use Rattle.std.specs.Str.{bytes_eq};
ghost use Rattle.call_words.specs.Choices.{choice_in};
ghost use Rattle.call_words.specs.Commands.{key_text, command_named, keys_of, is_rule_for};

use crate::rule_choice::{RuleChoice, choice_in, name_in};

/// A command of the program.
#[derive(Clone, Copy, Debug, PartialEq, Eq)]
pub enum Command {
    /// Prints where a tile lies in its supertile.
    Place,
    /// Prints the tile across an edge.
    Neighbour,
    /// Walks along a path, in a frame that grows, and prints the tiles.
    Walk,
    /// Draws the tiles of a window.
    Draw,
    /// Prints that a rule is accepted.
    Check,
    /// Runs a script of questions about addresses.
    Calc,
    /// Covers pseudorandom windows, which the seed determines, and prints totals.
    Drill,
    /// Prints the tiles around a vertex.
    Star,
    /// Checks if a list of tiles is that of a window.
    Verify,
}

/// A key of an argument `key=value`.
#[derive(Clone, Copy, Debug, PartialEq, Eq)]
pub enum Key {
    /// The name of a rule, or `-` for a rule file that is read.
    Rule,
    /// The address of a tile.
    Addr,
    /// The number of an edge.
    Edge,
    /// The seed of growth.
    Seed,
    /// The depth to which a frame grows first.
    Grow,
    /// The numbers of the edges that are crossed, one after another.
    Path,
    /// The centre of a window, as four coefficients.
    At,
    /// The half-width and half-height of a window.
    Half,
    /// The formats of a drawing.
    Layers,
    /// `yes` if halves are drawn as whole tiles.
    Glue,
    /// The number of windows that are covered.
    Count,
    /// The number of a vertex.
    Vertex,
}

impl Command {
    /// Returns the command that an argument names.
    pub(crate) fn named(word: &str) -> Option<Command>
        ensures { result ≡ command_named word.now }
    {
        if word == "place" {
            Some(Command::Place)
        } else if word == "neighbour" {
            Some(Command::Neighbour)
        } else if word == "walk" {
            Some(Command::Walk)
        } else if word == "draw" {
            Some(Command::Draw)
        } else if word == "check" {
            Some(Command::Check)
        } else if word == "calc" {
            Some(Command::Calc)
        } else if word == "drill" {
            Some(Command::Drill)
        } else if word == "star" {
            Some(Command::Star)
        } else if word == "verify" {
            Some(Command::Verify)
        } else {
            None
        }
    }

    /// Returns the keys of the command.
    fn keys(self) -> &'static [Key]
        ensures { result.now ≡ keys_of self }
    {
        match self {
            Command::Place => &[Key::Rule, Key::Addr],
            Command::Neighbour => &[Key::Rule, Key::Addr, Key::Edge],
            Command::Walk => &[Key::Rule, Key::Addr, Key::Seed, Key::Grow, Key::Path],
            Command::Draw => &[
                Key::Rule,
                Key::Addr,
                Key::At,
                Key::Half,
                Key::Layers,
                Key::Seed,
                Key::Glue,
            ],
            Command::Check | Command::Calc => &[Key::Rule],
            Command::Drill => &[Key::Rule, Key::Count, Key::Seed],
            Command::Star => &[Key::Rule, Key::Addr, Key::Vertex, Key::Seed],
            Command::Verify => &[Key::Rule, Key::Addr, Key::At, Key::Half, Key::Seed],
        }
    }

    /// Returns the key of the command with this name.
    pub(crate) fn key_named(self, name: &str) -> Option<Key>
        ensures { result ≡ find (λ key. bytes_eq name.now (key_text key)) (keys_of self) }
    {
        for key in self.keys() {
            if name == key.text() {
                return Some(*key);
            }
        }
        None
    }

    /// Returns the rule that a text chooses for this command. `calc` reads a script and `verify` reads a
    /// list, so they take no rule file.
    pub(crate) fn rule_in(self, value: &str) -> Option<RuleChoice>
        ensures right { is_some result ≡ is_rule_for self value.now }
        ensures chosen { is_some result ≡ true → result ≡ choice_in value.now }
    {
        match self {
            Command::Calc | Command::Verify => Some(RuleChoice::Builtin {
                name: name_in(value)?,
            }),
            _ => choice_in(value),
        }
    }
}

impl Key {
    /// Returns the name of the key.
    fn text(self) -> &'static str
        ensures { result.now ≡ key_text self }
    {
        match self {
            Key::Rule => "rule",
            Key::Addr => "addr",
            Key::Edge => "edge",
            Key::Seed => "seed",
            Key::Grow => "grow",
            Key::Path => "path",
            Key::At => "at",
            Key::Half => "half",
            Key::Layers => "layers",
            Key::Glue => "glue",
            Key::Count => "n",
            Key::Vertex => "vertex",
        }
    }
}
