//! The request that the arguments of a call make.
ghost use Rattle.std.specs.Prelude.{◌≡◌, ℕ, List, IfOk};
ghost use Rattle.call_words.specs.Request.{request_in, rule_asked, formats_of};
ghost use Rattle.call_words.specs.Views.{AnswersAs, IsWithinForms, question_of, request_of};
ghost use Rattle.call_words.specs.Words.{texts};
ghost use Rattle.call_words.specs.WrongWord.{place_refused, wrong_place};

use crate::format_words::MOST_FORMATS;
use crate::path_word::Path;
use crate::rule_choice::RuleChoice;
use crate::values::Values;
use crate::window_words::WindowWords;
use crate::words::Command;
use arrayvec::ArrayVec;
use builtin_rules::name::Name;
use layer_api::format::Format;

/// What a call asks for. An address is still a text, because only the rule says how to read it.
#[derive(Drop)]
pub enum Request<'a> {
    /// Where a tile lies in its supertile.
    Place {
        rule: RuleChoice,
        addr: &'a str,
    },
    /// The tile across an edge.
    Neighbour {
        rule: RuleChoice,
        addr: &'a str,
        edge: u8,
    },
    /// That a rule is accepted.
    Check {
        rule: RuleChoice,
    },
    /// The output of a script.
    Calc {
        name: Name,
    },
    /// Totals over a number of windows.
    Drill {
        rule: RuleChoice,
        count: u8,
        seed: u64,
    },
    /// What the frame of a tile shows. The seed chooses how it grows.
    InFrame {
        addr: &'a str,
        seed: u64,
        question: Question<'a>,
    },
}

/// A question about the frame of a tile. A path is lent, so that a request is small.
#[derive(Drop)]
pub enum Question<'a> {
    /// The tiles along a path. The frame first grows to a depth.
    Walk {
        rule: RuleChoice,
        grow: u8,
        path: &'a [u8],
    },
    /// The tiles of a window, or their whole tiles, through layers of these formats.
    Draw {
        rule: RuleChoice,
        window: WindowWords,
        layers: ArrayVec<Format, MOST_FORMATS>,
        glue: bool,
    },
    /// The tiles around a vertex.
    Star {
        rule: RuleChoice,
        vertex: u8,
    },
    /// If a list of tiles is that of a window.
    Verify {
        name: Name,
        window: WindowWords,
    },
}

impl<'a> Question<'a> {
    /// Returns the choice of the rule.
    fn rule(&self) -> RuleChoice
        ensures { (addr : List ℕ) (seed : ℕ) → result ≡ rule_asked (question_of addr seed self.now) }
    {
        match self {
            Question::Walk { rule, .. } => *rule,
            Question::Draw { rule, .. } => *rule,
            Question::Star { rule, .. } => *rule,
            Question::Verify { name, .. } => RuleChoice::Builtin { name: *name },
        }
    }
}

impl<'a> Request<'a> {
    /// Returns the choice of the rule.
    pub fn rule(&self) -> RuleChoice
        ensures { result ≡ rule_asked (request_of self.now) }
    {
        match self {
            Request::Place { rule, .. } => *rule,
            Request::Neighbour { rule, .. } => *rule,
            Request::Check { rule } => *rule,
            Request::Calc { name } => RuleChoice::Builtin { name: *name },
            Request::Drill { rule, .. } => *rule,
            Request::InFrame { question, .. } => question.rule(),
        }
    }

    /// Returns the formats that need a layer, in order. Only `draw` has any.
    pub fn formats(&self) -> &[Format]
        ensures { result.now ≡ formats_of (request_of self.now) }
    {
        match self {
            Request::InFrame {
                question: Question::Draw { layers, .. },
                ..
            } => layers.as_slice(),
            _ => &[],
        }
    }
}

/// Returns the request of a command, or the position of the first wrong argument.
fn words_read<'a>(words: &'a [String], room: &'a mut Option<Path>) -> Result<Request<'a>, usize>
    ensures asked { AnswersAs request_of result (request_in (texts words.now)) }
{
    let Some(name) = words.first() else {
        return Err(0);
    };
    let Some(command) = Command::named(name.as_str()) else {
        return Err(0);
    };
    *room = None;
    let mut values = Values::new();
    for place in 1..words.len() {
        if !values.put_word(room, command, words[place].as_str()) {
            return Err(place);
        }
    }
    values.request(command, &*room).ok_or(words.len())
}

/// Returns the request of the arguments. Err has the position of the first wrong argument, counted from 0, or
/// the number of arguments if a required key is missing.
///
/// The first argument is wrong if it names no command. A later one is wrong if it has no `=`, or if its value
/// is malformed. It is also wrong if the command does not take its key, or an earlier argument has the key.
/// The request borrows its path from `room`.
pub fn request_in<'a>(words: &'a [String], room: &'a mut Option<Path>) -> Result<Request<'a>, usize>
    ensures asked { AnswersAs request_of result (request_in (texts words.now)) }
    ensures bad_words { place_refused result ≡ wrong_place (texts words.now) }
    ensures within { IfOk result IsWithinForms }
{
    words_read(words, room)
}
