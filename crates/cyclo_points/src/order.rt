ghost use Rattle.std.specs.Prelude.{◌≡◌};
ghost use Rattle.cyclo_points.specs.Order.{points_of};

/// The order n. Points are integer combinations of the powers of ζ = e^(2πi/n).
#[derive(Clone, Copy, Debug, PartialEq, Eq, PartialOrd, Ord)]
pub enum Order {
    Four,
    Six,
    Eight,
    Ten,
}

impl Order {
    /// Returns the number n: 4, 6, 8 or 10. A turn by ζ is an n-th of a full turn.
    pub fn n(self) -> u8
        ensures { result ≡ (points_of self).order }
    {
        match self {
            Order::Four => 4,
            Order::Six => 6,
            Order::Eight => 8,
            Order::Ten => 10,
        }
    }
}
