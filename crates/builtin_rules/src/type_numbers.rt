/// The numbers of an edge type: its mate, and the types into which it is cut, in order. The list is a type
/// parameter, because a definition can name a constant only if its type has no reference of its own.
#[derive(Clone, Copy)]
pub struct TypeNumbers<Types = &'static [u8]> {
    pub mate: u8,
    pub parts: Types,
}
