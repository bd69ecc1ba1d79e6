/// Where a child edge lies: against an edge of another child, along an edge of the parent, or
/// neither.
#[derive(Clone, Copy)]
pub(crate) enum Lie {
    Inner { child: u8, edge: u8 },
    Boundary { edge: u8 },
    Loose,
}
