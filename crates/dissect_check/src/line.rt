use cyclo_points::point::Point;

/// A directed edge, from one point to another.
#[derive(Clone, Copy)]
pub(crate) struct Line {
    pub from: Point,
    pub to: Point,
}
