//! The format of a layer's text.

/// The format of a layer's text.
#[derive(Clone, Copy, Debug, Default, PartialEq, Eq, PartialOrd, Ord)]
pub enum Format {
    /// The outlines of the tiles, as an SVG picture.
    #[default]
    Svg,
    /// The tiles, one per line.
    List,
    /// The number of tiles, by class and in total.
    Census,
}
