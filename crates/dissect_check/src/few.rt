//! How many members of a list pass a test: none, one, or more.

ghost use Rattle.std.specs.Prelude.{◌≡◌};
ghost use Rattle.dissect_check.specs.Few.{one_more};

/// No member of a list, the one member, or more than one.
#[derive(Clone, Copy)]
pub(crate) enum Few<T> {
    None,
    One(T),
    Many,
}

impl<T: Copy> Few<T> {
    /// Returns these members with one more.
    pub fn more(self, x: T) -> Few<T>
        ensures { result ≡ one_more self x }
    {
        match self {
            Few::None => Few::One(x),
            _ => Few::Many,
        }
    }
}
