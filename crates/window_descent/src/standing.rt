//! How a polygon lies relative to a window.
ghost use Rattle.std.specs.Prelude.{◌≡◌, ◌^◌, ◌&&◌, ◌||◌, true, false, All};
ghost use Rattle.cyclo_points.specs.Point.{IsWithin};
ghost use Rattle.window_descent.specs.Standing.{IsStanding};
ghost use Rattle.window_descent.specs.declared.standing.Standing.TheVariants as Standing;
ghost use Rattle.window_descent.specs.Reach.{AreInReach, IsInReach};

use crate::sides::{Sides, sides_of};
use cyclo_points::order::Order;
use cyclo_points::point::Point;
use plane_geom::window::Window;

/// How a polygon lies relative to a window.
#[derive(Clone, Copy, PartialEq, Eq)]
pub enum Standing {
    /// All vertices are beyond one side.
    Beyond,
    /// All vertices are inside the window.
    Within,
    /// Neither of these holds.
    Across,
}

/// Finds how a polygon lies relative to a window, by its vertices.
pub fn beside(order: Order, window: &Window, corners: &[Point]) -> Standing
    requires within { AreInReach corners.now }
    requires centre_within { IsInReach window.now }
    ensures { IsStanding order window.now corners.now result }
{
    let mut every = Sides {
        right: true,
        left: true,
        upper: true,
        lower: true,
    };
    let mut some = Sides {
        right: false,
        left: false,
        upper: false,
        lower: false,
    };
    for corner in corners {
        let sides = sides_of(order, window, corner);
        every = both(&every, &sides);
        some = either(&some, &sides);
    }
    standing_of(&every, &some)
}

/// Combines two results: `every` has the sides that all vertices are inside of, and `some` those that at
/// least one vertex is inside of.
fn standing_of(every: &Sides, some: &Sides) -> Standing
    ensures beyond { result ≡ Standing.Beyond → (some.now.right && some.now.left
        && (some.now.upper && some.now.lower)) ≡ false }
    ensures within { result ≡ Standing.Within → (every.now.right && every.now.left
        && (every.now.upper && every.now.lower)) ≡ true }
{
    if !(some.right && some.left && (some.upper && some.lower)) {
        return Standing::Beyond;
    }
    if every.right && every.left && (every.upper && every.lower) {
        return Standing::Within;
    }
    Standing::Across
}

/// Returns the sides that both are inside of.
fn both(a: &Sides, b: &Sides) -> Sides
    ensures right { result.right ≡ (a.now.right && b.now.right) }
    ensures left { result.left ≡ (a.now.left && b.now.left) }
    ensures upper { result.upper ≡ (a.now.upper && b.now.upper) }
    ensures lower { result.lower ≡ (a.now.lower && b.now.lower) }
{
    Sides {
        right: a.right && b.right,
        left: a.left && b.left,
        upper: a.upper && b.upper,
        lower: a.lower && b.lower,
    }
}

/// Returns the sides that at least one of two is inside of.
fn either(a: &Sides, b: &Sides) -> Sides
    ensures right { result.right ≡ (a.now.right || b.now.right) }
    ensures left { result.left ≡ (a.now.left || b.now.left) }
    ensures upper { result.upper ≡ (a.now.upper || b.now.upper) }
    ensures lower { result.lower ≡ (a.now.lower || b.now.lower) }
{
    Sides {
        right: a.right || b.right,
        left: a.left || b.left,
        upper: a.upper || b.upper,
        lower: a.lower || b.lower,
    }
}
