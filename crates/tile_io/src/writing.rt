//! Writing a whole piece.
ghost use Rattle.std.specs.Prelude.{◌≡◌, [], IsOk, OnOk, OnErr};
ghost use Rattle.tile_io.specs.Causes.{HasCause};
ghost use Rattle.tile_io.specs.Taken.{Takes, TakesProperPrefix};

use crate::failed::Failed;
use crate::sink::Sink;

/// Writes all of `bytes`, in as many calls as the sink needs, and in none if there is nothing to write. It
/// needs no memory.
///
/// # Errors
///
/// `Failed` only if the sink's count of faults rose; then a proper prefix of `bytes` was taken.
pub fn write_all<W: Sink>(sink: &mut W, bytes: &[u8]) -> Result<(), Failed>
    ensures all { OnOk result (Takes (W.taken sink.old) (W.taken sink.new) bytes.now) }
    ensures part { OnErr result (TakesProperPrefix (W.taken sink.old) (W.taken sink.new) bytes.now) }
    ensures cause { HasCause (W.faults sink.old) (W.faults sink.new) result }
    ensures empty { bytes.now ≡ [] → IsOk result }
    ensures untouched { bytes.now ≡ [] → sink.new ≡ sink.old }
{
    let mut at = 0;
    while at < bytes.len() {
        at += sink.write(&bytes[at..])?;
    }
    Ok(())
}
