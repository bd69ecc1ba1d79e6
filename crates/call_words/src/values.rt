//! The values that arguments give, each read once.
ghost use Rattle.std.specs.Prelude.{◌≡◌, ℕ, List, [], ◌∷◌, ◌++◌, ◌&&◌, true, not, None, is_some};
ghost use Rattle.call_words.specs.Commands.{has_form};
ghost use Rattle.call_words.specs.Reading.{values_of, has_value, with_value, HaveForms};
ghost use Rattle.call_words.specs.Values.{values_given};
ghost use Rattle.call_words.specs.Words.{is_right};

use crate::format_words::{MOST_FORMATS, formats_in};
use crate::glue_word::glue_in;
use crate::number::small_number;
use crate::path_word::{Path, path_in};
use crate::rule_choice::RuleChoice;
use crate::window_words::{HalfExtents, at_in, half_in, windows_in};
use crate::words::{Command, Key};
use arrayvec::ArrayVec;
use cyclo_points::point::Point;
use layer_api::format::Format;
use tile_shape::decimal::read_number;

/// The value of each key that is given. The path is kept apart, because a request borrows it.
#[derive(Drop)]
pub(crate) struct Values<'a> {
    pub(crate) rule: Option<RuleChoice>,
    pub(crate) addr: Option<&'a str>,
    pub(crate) edge: Option<u8>,
    pub(crate) seed: Option<u64>,
    pub(crate) grow: Option<u8>,
    pub(crate) at: Option<Point>,
    pub(crate) half: Option<HalfExtents>,
    pub(crate) layers: Option<ArrayVec<Format, MOST_FORMATS>>,
    pub(crate) glue: Option<bool>,
    pub(crate) count: Option<u8>,
    pub(crate) vertex: Option<u8>,
}

/// Puts a value into a field. Returns true if the field was empty, and there is a value.
fn fill<T: Drop>(field: &mut Option<T>, value: Option<T>) -> bool
    ensures filled { field.new ≡ value }
    ensures first { result ≡ not (is_some field.old) && is_some value }
{
    let is_first = field.is_none() && value.is_some();
    *field = value;
    is_first
}

impl<'a> Values<'a> {
    /// Makes values of which no key has one.
    pub(crate) fn new() -> Values<'a>
        ensures { values_of result None ≡ values_given [] }
    {
        Values {
            rule: None,
            addr: None,
            edge: None,
            seed: None,
            grow: None,
            at: None,
            half: None,
            layers: None,
            glue: None,
            count: None,
            vertex: None,
        }
    }

    /// Reads the value of a key of the command, and keeps it. Returns true if the key had no value, and this
    /// one has the key's form.
    fn put(&mut self, path: &mut Option<Path>, command: Command, key: Key, value: &'a str) -> bool
        ensures right { result ≡ not (has_value key (values_of self.old path.old))
            && has_form command key value.now }
        ensures put { result ≡ true
            → values_of self.new path.new ≡ with_value key value.now (values_of self.old path.old) }
    {
        match key {
            Key::Rule => fill(&mut self.rule, command.rule_in(value)),
            Key::Addr => fill(&mut self.addr, Some(value)),
            Key::Edge => fill(&mut self.edge, small_number(value.as_bytes(), 255)),
            Key::Seed => fill(&mut self.seed, read_number(value.as_bytes(), u64::MAX)),
            Key::Grow => fill(&mut self.grow, small_number(value.as_bytes(), 64)),
            Key::Path => fill(path, path_in(value)),
            Key::At => fill(&mut self.at, at_in(value)),
            Key::Half => fill(&mut self.half, half_in(value)),
            Key::Layers => fill(&mut self.layers, formats_in(value)),
            Key::Glue => fill(&mut self.glue, glue_in(value)),
            Key::Count => fill(&mut self.count, windows_in(value)),
            Key::Vertex => fill(&mut self.vertex, small_number(value.as_bytes(), 255)),
        }
    }

    /// Reads an argument, after those of which these are the values. Returns true if it is right.
    pub(crate) fn put_word(
        &mut self,
        path: &mut Option<Path>,
        command: Command,
        word: &'a str,
    ) -> bool
        ensures right { (before : List (List ℕ)) → values_of self.old path.old ≡ values_given before
            → HaveForms command before → result ≡ is_right command before word.now }
        ensures put { (before : List (List ℕ)) → values_of self.old path.old ≡ values_given before
            → HaveForms command before → result ≡ true
            → values_of self.new path.new ≡ values_given (before ++ word.now ∷ []) }
    {
        let Some((name, value)) = word.split_once('=') else {
            return false;
        };
        match command.key_named(name) {
            Some(key) => self.put(path, command, key, value),
            None => false,
        }
    }
}
