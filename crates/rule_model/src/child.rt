use cyclo_points::point::Point;

/// A child of a kind: the prototile of `kind`, turned by ζ^turn, then shifted by `shift` into the parent's
/// inflated prototile.
#[derive(Clone, Copy, Debug, Default, PartialEq, Eq)]
pub struct Child {
    pub kind: u8,
    pub turn: u8,
    pub shift: Point,
}
