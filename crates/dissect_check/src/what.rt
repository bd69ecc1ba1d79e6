/// The count or number that is beyond a limit. It belongs to the rule (kinds, edge types, factor, glue
/// types), to a type (mate, parts), or to a kind (edges, vertices, children).
#[derive(Clone, Copy, Debug, PartialEq, Eq)]
pub enum What {
    Kinds,
    Types,
    Factor,
    Glue,
    Mate { ty: u8 },
    Parts { ty: u8 },
    Edges { kind: u8 },
    Vertex { kind: u8 },
    Child { kind: u8 },
}
