//! The window that a request asks for.
ghost use Rattle.std.specs.Prelude.{◌≡◌};
ghost use Rattle.call_words.specs.Views.{IsWindowAsked, window_of};
ghost use Rattle.cyclo_points.specs.Point.{IsOf};
ghost use Rattle.tile_app.specs.Windows.{window_asked};
ghost use Rattle.window_cover.specs.Windows.{IsWindow};

use call_words::window_words::WindowWords;
use cyclo_points::coordinates::reduce;
use cyclo_points::order::Order;
use plane_geom::window::Window;

/// Returns the window that is asked for, with its centre reduced to the order.
pub fn window_in(order: Order, asked: &WindowWords) -> Window
    requires asked { IsWindowAsked asked.now }
    ensures window { result ≡ window_asked order (window_of asked.now) }
    ensures fits { IsWindow result }
    ensures in_order { IsOf order result.centre }
{
    Window {
        centre: reduce(order, &asked.at),
        w: asked.half.w,
        h: asked.half.h,
    }
}
