//! The files that a call may read.
ghost use Rattle.std.specs.Prelude.{◌≡◌};
ghost use Rattle.tile_app.specs.FileKinds.{longest_of, too_long_of};

use call_notes::script_fault::ScriptFault;
use call_notes::status::Status;
use list_verify::list_fault::ListFault;
use rule_text::reading::LONGEST_FILE;

/// The greatest length of a list of tiles, in bytes.
const LONGEST_LISTING: usize = 67_108_864;

/// What a file holds.
#[derive(Clone, Copy, Debug, PartialEq, Eq)]
pub enum FileKind {
    /// A rule file.
    Rule,
    /// The script of `calc`.
    Script,
    /// The list of tiles of `verify`.
    Listing,
}

impl FileKind {
    /// Returns the greatest length of such a file, in bytes.
    pub fn longest(self) -> usize
        ensures { result ≡ longest_of self }
    {
        match self {
            FileKind::Rule | FileKind::Script => LONGEST_FILE,
            FileKind::Listing => LONGEST_LISTING,
        }
    }

    /// Returns the refusal for such a file that is too long.
    pub fn too_long(self) -> Status
        ensures { result ≡ too_long_of self }
    {
        match self {
            FileKind::Rule => Status::RuleTooLong,
            FileKind::Script => Status::BadScript {
                fault: ScriptFault::TooLong,
            },
            FileKind::Listing => Status::BadListing {
                fault: ListFault::TooLong,
            },
        }
    }
}
