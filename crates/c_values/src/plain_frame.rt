//! Frames as plain numbers.
ghost use Rattle.std.specs.Prelude.{◌≡◌, ◌↔◌, IsSome, IfSome};
ghost use Rattle.theory_walks.specs.Frames.{IsFrameOf};
ghost use Rattle.rule_model.specs.Tiling.{tiling_of};
ghost use Rattle.c_values.specs.Addresses.{NamesTile};
ghost use Rattle.c_values.specs.Frames.{frame_in};

use crate::plain_address::PlainAddress;
use lazy_walk::frame::Frame;
use tile_place::machine::Machine;

/// A frame: the supertiles around a base tile. They grow at the coarse end, and the seed chooses how. The
/// same two values give the same tiling in every call.
#[repr(C)]
#[derive(Clone, Copy)]
pub struct PlainFrame {
    pub seed: u64,
    pub base: PlainAddress,
}

impl PlainFrame {
    /// Returns the frame of these numbers before it grows, or None exactly if the base names no tile.
    pub fn frame(&self, machine: &Machine) -> Option<Frame>
        ensures seen { IfSome result (λ f. f ≡ frame_in self.now) }
        ensures is_frame { IfSome result (IsFrameOf (tiling_of machine.now)) }
        ensures named { IsSome result ↔ NamesTile (tiling_of machine.now) self.now.base }
    {
        let base = self.base.tile(machine)?;
        Some(Frame::new(base, self.seed))
    }
}
