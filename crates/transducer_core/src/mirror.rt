//! Parts of an edge, seen from the other side.
ghost use Rattle.std.specs.Prelude.{◌≡◌, ◌+◌, ◌<◌};

/// Returns the number of a part of an edge, counted from the other side.
pub(crate) fn mirror(count: u8, part: u8) -> u8
    requires { part < count }
    ensures { result + (part + 1) ≡ count }
{
    count - 1 - part
}
