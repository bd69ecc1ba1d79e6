/// A table of a rule file: the whole document, the entry of a type, or the entry of a kind. Entries are
/// numbered from 0.
#[derive(Clone, Copy, Debug, PartialEq, Eq)]
pub enum Place {
    Top,
    InType { ty: u32 },
    InKind { kind: u32 },
}
