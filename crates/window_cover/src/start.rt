//! Finds the tile at the centre of a window.
ghost use Rattle.std.specs.Prelude.{◌≡◌, ◌<◌, ◌≤◌, ℕ, length, IfOk};
ghost use Rattle.rule_model.specs.Tiling.{tiling_of};
ghost use Rattle.cyclo_points.specs.Point.{point_in};
ghost use Rattle.theory_walks.specs.Containing.{FrameHolds};
ghost use Rattle.theory_walks.specs.Frames.{at_depth, IsFrameOf};
ghost use Rattle.window_cover.specs.Ends.{CoversTo};
ghost use Rattle.window_cover.specs.Windows.{IsWindow};
ghost use Rattle.window_cover.specs.Right.{IsRight};
ghost use Rattle.window_cover.specs.Searched.{HasBegun};

use crate::border::Border;
use crate::cover::Cover;
use crate::cover_fault::CoverFault;
use crate::search_laws::search_laws;
use arrayvec::ArrayVec;
use lazy_walk::frame::Frame;
use plane_geom::window::Window;
use seeded_growth::laws::grown_fits_law;
use std::alloc::Global;
use tile_place::machine::Machine;

impl Cover {
    /// Begins a search: finds the tile that holds the window's centre, with its open edges. The frame grows
    /// until it holds the centre. The errors have the causes that [`cover`](crate::tiles_of_window::cover)
    /// lists.
    pub fn start(
        alloc: Global,
        machine: &Machine,
        frame: &mut Frame,
        window: &Window,
    ) -> Result<Cover, CoverFault>
        requires frame { IsFrameOf (tiling_of machine.now) frame.old }
        requires window_fits { IsWindow window.now }
        // The call ends as [`cover`](crate::tiles_of_window::cover) does.
        ensures ends { CoversTo (tiling_of machine.now) frame.old frame.new window.now result }
        ensures right { IfOk result (λ cover. IsRight (tiling_of machine.now) frame.new cover) }
        ensures one_tile { IfOk result (λ cover. length cover.found ≡ 1) }
        ensures begun { IfOk result (HasBegun (tiling_of machine.now) frame.old window.now) }
        // The new depth is the least, not below the old one, at which the frame holds the centre.
        ensures least { (n : ℕ) → length frame.old.digits ≤ n → n < length frame.new.digits
            → ¬ FrameHolds (tiling_of machine.now) (at_depth (tiling_of machine.now) n frame.old)
            (point_in machine.now.order window.now.centre) }
    {
        let checked = machine.checked();
        let order = checked.order();
        search_laws(order);
        grown_fits_law();
        let _usable = checked.uses().kinds();
        let tile = frame.contain(machine, &window.centre)?;
        let mut cover = Cover {
            window: *window,
            found: Vec::new(alloc),
            digits: Vec::new(alloc),
            border: Border::new(alloc),
            corners: ArrayVec::new(),
        };
        cover.admit(machine, &tile)?;
        Ok(cover)
    }
}
