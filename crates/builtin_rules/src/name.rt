/// The name of a built-in rule.
#[derive(Clone, Copy, Debug, PartialEq, Eq)]
pub enum Name {
    /// An L of three squares, cut into four chairs.
    Chair,
    /// Penrose's kites and darts, as half tiles.
    P2,
    /// Penrose's thin and thick rhombs, as half tiles.
    P3,
    /// The rhombs and squares of Ammann and Beenker, with the squares as half tiles.
    AmmannBeenker,
    /// Half of a regular hexagon, cut into four half-hexes.
    HalfHex,
}
