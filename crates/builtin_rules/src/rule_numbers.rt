use crate::kind_numbers::KindNumbers;
use crate::type_numbers::TypeNumbers;
use cyclo_points::order::Order;
use cyclo_points::point::Point;
use rule_model::edition::Edition;

/// The numbers of a rule: its edition, its order, its inflation factor, its glue types, its edge types and
/// its kinds. Halves of tiles are glued along edges of glue types.
#[derive(Clone, Copy)]
pub struct RuleNumbers<
    Glue = &'static [u8],
    Types = &'static [TypeNumbers],
    Kinds = &'static [KindNumbers],
> {
    pub edition: Edition,
    pub order: Order,
    pub factor: Point,
    pub glue: Glue,
    pub types: Types,
    pub kinds: Kinds,
}
