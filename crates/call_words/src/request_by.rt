//! The request of each command, from the values that are given.
ghost use Rattle.std.specs.Prelude.{◌≡◌, Option, None};
ghost use Rattle.std.specs.Option.{option_map};
ghost use Rattle.call_words.specs.declared.words.Command.TheVariants as command;
ghost use Rattle.call_words.specs.Reading.{values_of};
ghost use Rattle.call_words.specs.Request.{asked_by};
ghost use Rattle.call_words.specs.Views.{request_of};

use crate::path_word::Path;
use crate::request::{Question, Request};
use crate::values::Values;
use crate::window_words::WindowWords;
use crate::words::Command;

impl<'a> Values<'a> {
    #[tactic(auto, unfolding(crate::specs::Request::asked_by))]
    fn place(&self) -> Option<Request<'a>>
        ensures { option_map request_of result ≡ asked_by command.Place (values_of self.now None) }
    {
        Some(Request::Place {
            rule: self.rule?,
            addr: self.addr?,
        })
    }

    #[tactic(auto, unfolding(crate::specs::Request::asked_by))]
    fn neighbour(&self) -> Option<Request<'a>>
        ensures { option_map request_of result ≡ asked_by command.Neighbour (values_of self.now None) }
    {
        Some(Request::Neighbour {
            rule: self.rule?,
            addr: self.addr?,
            edge: self.edge?,
        })
    }

    #[tactic(auto, unfolding(crate::specs::Request::asked_by))]
    fn walk(&self, path: &'a Option<Path>) -> Option<Request<'a>>
        ensures { option_map request_of result ≡ asked_by command.Walk (values_of self.now path.now) }
    {
        Some(Request::InFrame {
            addr: self.addr?,
            seed: self.seed.unwrap_or(0),
            question: Question::Walk {
                rule: self.rule?,
                grow: self.grow.unwrap_or(0),
                path: match path {
                    Some(path) => path.as_slice(),
                    None => &[],
                },
            },
        })
    }

    #[tactic(auto, unfolding(crate::specs::Request::asked_by))]
    fn draw(self) -> Option<Request<'a>>
        ensures { option_map request_of result ≡ asked_by command.Draw (values_of self.entry None) }
    {
        Some(Request::InFrame {
            addr: self.addr?,
            seed: self.seed.unwrap_or(0),
            question: Question::Draw {
                rule: self.rule?,
                window: WindowWords {
                    at: self.at?,
                    half: self.half?,
                },
                layers: self.layers?,
                glue: self.glue.unwrap_or(false),
            },
        })
    }

    #[tactic(auto, unfolding(crate::specs::Request::asked_by))]
    fn check(&self) -> Option<Request<'a>>
        ensures { option_map request_of result ≡ asked_by command.Check (values_of self.now None) }
    {
        Some(Request::Check { rule: self.rule? })
    }

    #[tactic(auto, unfolding(crate::specs::Request::asked_by))]
    fn calc(&self) -> Option<Request<'a>>
        ensures { option_map request_of result ≡ asked_by command.Calc (values_of self.now None) }
    {
        Some(Request::Calc {
            name: self.rule?.name()?,
        })
    }

    #[tactic(auto, unfolding(crate::specs::Request::asked_by))]
    fn drill(&self) -> Option<Request<'a>>
        ensures { option_map request_of result ≡ asked_by command.Drill (values_of self.now None) }
    {
        Some(Request::Drill {
            rule: self.rule?,
            count: self.count?,
            seed: self.seed.unwrap_or(0),
        })
    }

    #[tactic(auto, unfolding(crate::specs::Request::asked_by))]
    fn star(&self) -> Option<Request<'a>>
        ensures { option_map request_of result ≡ asked_by command.Star (values_of self.now None) }
    {
        Some(Request::InFrame {
            addr: self.addr?,
            seed: self.seed.unwrap_or(0),
            question: Question::Star {
                rule: self.rule?,
                vertex: self.vertex?,
            },
        })
    }

    #[tactic(auto, unfolding(crate::specs::Request::asked_by))]
    fn verify(&self) -> Option<Request<'a>>
        ensures { option_map request_of result ≡ asked_by command.Verify (values_of self.now None) }
    {
        Some(Request::InFrame {
            addr: self.addr?,
            seed: self.seed.unwrap_or(0),
            question: Question::Verify {
                name: self.rule?.name()?,
                window: WindowWords {
                    at: self.at?,
                    half: self.half?,
                },
            },
        })
    }

    /// Returns the request of a command, or None if a required key is not given.
    #[tactic(auto, unfolding(crate::specs::Request::asked_by))]
    pub(crate) fn request(self, command: Command, path: &'a Option<Path>) -> Option<Request<'a>>
        ensures { option_map request_of result ≡ asked_by command (values_of self.entry path.now) }
    {
        match command {
            Command::Place => self.place(),
            Command::Neighbour => self.neighbour(),
            Command::Walk => self.walk(path),
            Command::Draw => self.draw(),
            Command::Check => self.check(),
            Command::Calc => self.calc(),
            Command::Drill => self.drill(),
            Command::Star => self.star(),
            Command::Verify => self.verify(),
        }
    }
}
