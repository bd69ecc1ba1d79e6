use cyclo_points::point::Point;

/// The open box around a centre: the points whose X differs from the centre's by less than `w`, and whose Y
/// differs by less than `h`.
#[derive(Clone, Copy, Debug, Default, PartialEq, Eq, PartialOrd, Ord)]
pub struct Window {
    pub centre: Point,
    pub w: u16,
    pub h: u16,
}
