//! Which row of the children of supertiles, and which of their bounds.
ghost use Rattle.std.specs.Prelude.{◌≡◌};
ghost use Rattle.window_descent.specs.Rows.{row_place};

/// The level, the kind and the turn of a supertile that is turned and not shifted.
#[derive(Clone, Copy)]
pub(crate) struct RowKey {
    pub(crate) level: u8,
    pub(crate) kind: u8,
    pub(crate) turn: u8,
}

impl RowKey {
    /// Returns the place in the index of rows.
    pub(crate) fn place(self) -> usize
        ensures { result ≡ row_place self.level self.kind self.turn }
    {
        (usize::from(self.level) * 16 + usize::from(self.kind)) * 16 + usize::from(self.turn)
    }
}
