/// An edge type of a rule.
///
/// - `mate`: the type of the same edge in the opposite direction.
/// - `parts`: the types, in order, into which the inflated edge is cut.
#[derive(Debug, Drop)]
pub struct TypeRow {
    pub mate: u8,
    pub parts: Vec<u8>,
}
