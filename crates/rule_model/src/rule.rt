use crate::edition::Edition;
use crate::kind_row::KindRow;
use crate::type_row::TypeRow;
use cyclo_points::order::Order;
use cyclo_points::point::Point;

/// A substitution rule: its order, its inflation factor, its glue types, its edge types and its kinds. A glue
/// type is an edge type along which halves of a tile are glued. Types and kinds are numbered from 0.
#[derive(Debug, Drop)]
pub struct Rule {
    /// Decides which inflation factors the rule may have.
    pub edition: Edition,
    pub order: Order,
    pub factor: Point,
    pub glue: Vec<u8>,
    pub types: Vec<TypeRow>,
    pub kinds: Vec<KindRow>,
}
