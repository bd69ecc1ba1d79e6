//! The file that a call reads: a rule file, a script, or a list of tiles.
ghost use Rattle.std.specs.Prelude.{◌≡◌, ◌≤◌, length, IfOk, IfErr, IsErrOf};
ghost use Rattle.tile_io.specs.Causes.{Rose};
ghost use Rattle.tile_app.specs.Asked.{WasRead};
ghost use Rattle.tile_app.specs.FileKinds.{longest_of};
ghost use Rattle.tile_app.specs.Reading.{IsFileUnread};

use crate::file_kind::FileKind;
use call_notes::status::Status;
use std::alloc::Global;
use tile_io::read_all_fault::ReadAllFault;
use tile_io::reading::read_all;
use tile_io::source::Source;

/// Reads the bytes of a file, to the end of the source.
pub fn file_read<R: Source>(
    alloc: Global,
    kind: FileKind,
    source: &mut R,
) -> Result<Vec<u8>, Status>
    ensures read { IfOk result (λ file. WasRead (longest_of kind) (R.left source.old)
        (R.left source.new) file.items) }
    ensures not_too_long { IfOk result (λ file. length file.items ≤ longest_of kind) }
    ensures refused { IfErr result (IsFileUnread kind (R.left source.old) (R.left source.new)) }
    ensures read_fault { IsErrOf result Status.ReadFault → Rose (R.faults source.old) (R.faults source.new) }
{
    match read_all(alloc, source, kind.longest()) {
        Ok(bytes) => Ok(bytes),
        Err(ReadAllFault::TooLong) => Err(kind.too_long()),
        Err(ReadAllFault::Fault) => Err(Status::ReadFault),
        Err(ReadAllFault::NoMemory) => Err(Status::NoMemory),
    }
}
