/// A key of a rule file. The keys of a type or a kind have the number of its entry, from 0.
#[derive(Clone, Copy, Debug, PartialEq, Eq)]
pub enum Key {
    Format,
    Order,
    Lambda,
    Glue,
    TypeList,
    Mate { ty: u32 },
    Parts { ty: u32 },
    KindList,
    Vertices { kind: u32 },
    Edges { kind: u32 },
    Children { kind: u32 },
}
