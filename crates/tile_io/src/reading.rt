//! Reading to the end.
ghost use Rattle.std.specs.Prelude.{◌≡◌, ◌≤◌, [], OnOk, IfOk, IfErr, IfSome, IsErrOf, vec_len};
ghost use Rattle.tile_io.specs.Causes.{Rose};
ghost use Rattle.tile_io.specs.Left.{Gives};
ghost use Rattle.tile_io.specs.ReadingAll.{GivesPart, AnswersFor};
ghost use Rattle.tile_io.specs.declared.read_all_fault.ReadAllFault.TheVariants.{Fault};

use crate::read_all_fault::ReadAllFault;
use crate::source::Source;
use std::alloc::Global;

// The most bytes that one call of a source is asked for.
const PIECE: usize = 4096;

/// Reads all bytes of the source to its end, at most `most` of them.
///
/// # Errors
///
/// - `TooLong` if and only if `most + 1` bytes were read.
/// - `Fault` only if the source's count of faults rose.
/// - `NoMemory` if memory ran out.
///
/// After an error at most `most + 1` bytes were read, and they are lost.
pub fn read_all<R: Source>(
    alloc: Global,
    source: &mut R,
    most: usize,
) -> Result<Vec<u8>, ReadAllFault>
    ensures all { IfOk result (λ bytes. Gives (R.left source.old) (R.left source.new) bytes.items) }
    ensures to_the_end { OnOk result (IfSome (R.left source.new) (λ left. left ≡ [])) }
    ensures at_most { IfOk result (λ bytes. vec_len bytes ≤ most) }
    ensures part { IfErr result (λ fault. GivesPart (R.left source.old) (R.left source.new) most fault) }
    ensures told { IfSome (R.left source.old) (λ bytes. AnswersFor bytes most result) }
    ensures cause { IsErrOf result Fault → Rose (R.faults source.old) (R.faults source.new) }
    ensures never_falls { R.faults source.old ≤ R.faults source.new }
{
    let mut bytes = Vec::new(alloc);
    let mut buf = [0; PIECE];
    loop {
        let room = most - bytes.len();
        let wanted = room.min(PIECE - 1) + 1;
        let count = source.read(&mut buf[..wanted])?;
        if count == 0 {
            return Ok(bytes);
        }
        if count > room {
            return Err(ReadAllFault::TooLong);
        }
        bytes.extend_from_slice(&buf[..count])?;
    }
}
