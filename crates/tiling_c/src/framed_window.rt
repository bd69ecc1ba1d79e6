//! The frame and the window that a caller's numbers give.
ghost use Rattle.std.specs.Prelude.{IfOk, IfErr};
ghost use Rattle.rule_model.specs.Tiling.{tiling_of};
ghost use Rattle.tiling_c.specs.FramedWindow.{GiveFramedWindow, RefusesFramedWindow};

use c_values::plain_frame::PlainFrame;
use c_values::plain_window::PlainWindow;
use c_values::status::{BAD_ADDRESS, BAD_WORDS};
use lazy_walk::frame::Frame;
use plane_geom::window::Window;
use tile_place::machine::Machine;

/// A frame, and a window in it.
#[derive(Drop)]
pub struct FramedWindow {
    pub frame: Frame,
    pub window: Window,
}

/// Returns the frame and the window that these numbers give.
///
/// # Errors
///
/// BAD_WORDS if they give no window, and BAD_ADDRESS if the base of the frame is no tile.
pub fn framed_window(
    machine: &Machine,
    frame: &PlainFrame,
    window: &PlainWindow,
) -> Result<FramedWindow, u8>
    ensures given { IfOk result (λ given. GiveFramedWindow (tiling_of machine.now) frame.now window.now
        given.frame given.window) }
    ensures refused { IfErr result (RefusesFramedWindow (tiling_of machine.now) frame.now window.now) }
{
    let Some(window) = window.window(machine.checked().order()) else {
        return Err(BAD_WORDS);
    };
    let Some(frame) = frame.frame(machine) else {
        return Err(BAD_ADDRESS);
    };
    Ok(FramedWindow { frame, window })
}
