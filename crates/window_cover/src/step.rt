//! Goes from tile to tile, across the first open edge.
ghost use Rattle.std.specs.Prelude.{◌≡◌, ◌⊎◌, ◌<◌, ◌≤◌, ℕ, length, IsOk, Err, Some, IfOk, IfErr, OnOk};
ghost use Rattle.rule_model.specs.Tiling.{tiling_of};
ghost use Rattle.theory_walks.specs.Frames.{FrameValue, IsFrameOf, GrowsTo};
ghost use Rattle.window_cover.specs.declared.cover_fault.CoverFault.TheVariants.{NoMemory};
ghost use Rattle.window_cover.specs.Found.{first_of};
ghost use Rattle.window_cover.specs.Windows.{IsLeastForWindow};
ghost use Rattle.window_cover.specs.Limits.{IsCoverWithinLimits};
ghost use Rattle.window_cover.specs.Causes.{HasCoverCause};
ghost use Rattle.window_cover.specs.Right.{IsRight};
ghost use Rattle.window_cover.specs.Stepping.{StepsTo, HasStepped, IsFirstOnBoundary};

use crate::cover::{Cover, no_tile};
use crate::cover_fault::CoverFault;
use crate::open_edge::OpenEdge;
use crate::search_laws::search_laws;
use edge_tables::steps::Steps;
use lazy_walk::frame::Frame;
use seeded_growth::laws::grown_fits_law;
use std::marker::Brand;
use std::sync::ledger::{Blank, Ledger};
use tile_place::machine::Machine;
use tile_place::placed_tile::PlacedTile;

/// Makes one step. Counts the look-ups on a ledger with this name.
fn counted_step<L: Ledger>(
    cover: &mut Cover,
    machine: &Machine,
    frame: &mut Frame,
    first: OpenEdge,
    blank: Blank,
) -> Result<(), CoverFault>
    requires name { blank.name ≡ L.name }
    requires parts { blank.parts ≡ L.parts }
    requires some { 0 < blank.parts }
    requires right { IsRight (tiling_of machine.now) frame.old cover.old }
    requires is_first { first_of cover.old.border ≡ Some first }
    ensures frame { GrowsTo (tiling_of machine.now) frame.old frame.new }
    ensures inside { OnOk result (¬ IsFirstOnBoundary (tiling_of machine.now) frame.old cover.old
        (length frame.new.digits)) }
    ensures least { (n : ℕ) → length frame.old.digits ≤ n → n < length frame.new.digits
        → IsFirstOnBoundary (tiling_of machine.now) frame.old cover.old n }
    ensures next { OnOk result (HasStepped (tiling_of machine.now) frame.old frame.new cover.old cover.new) }
    ensures cause { IfErr result (λ fault. HasCoverCause (tiling_of machine.now) frame.old frame.new
        cover.old.window fault) }
{
    let mut steps = Steps::<L>::new(blank);
    cover.advance(machine, frame, first, &mut no_tile(), &mut steps)
}

impl Cover {
    /// Crosses the first open edge, and so finds exactly one more tile: the one across.
    ///
    /// The frame grows to the least depth at which that edge is not on the boundary. The open edges that the
    /// new tile meets are closed. Its own edges are opened if they meet the window and have no tile found
    /// across them.
    ///
    /// The errors have the causes that [`cover`](crate::tiles_of_window::cover) lists.
    pub fn step(self, machine: &Machine, frame: &mut Frame) -> Result<Cover, CoverFault>
        requires right { IsRight (tiling_of machine.now) frame.old self }
        requires some_open { 0 < length self.border }
        ensures frame { GrowsTo (tiling_of machine.now) frame.old frame.new }
        // The new depth is the least, not below the old one, at which the first open edge is not on the
        // boundary.
        ensures inside { OnOk result (¬ IsFirstOnBoundary (tiling_of machine.now) frame.old self
            (length frame.new.digits)) }
        ensures least { (n : ℕ) → length frame.old.digits ≤ n → n < length frame.new.digits
            → IsFirstOnBoundary (tiling_of machine.now) frame.old self n }
        ensures steps_to { IfOk result (λ next. StepsTo (tiling_of machine.now) frame.old self next) }
        ensures right { IfOk result (λ next. IsRight (tiling_of machine.now) frame.new next) }
        ensures cause { IfErr result (λ fault. HasCoverCause (tiling_of machine.now) frame.old frame.new
            self.window fault) }
    {
        let mut next = self;
        match next.first_open() {
            Some(first) => {
                counted_step::<Brand>(&mut next, machine, frame, first, Blank::new(1))?;
                Ok(next)
            }
            None => Ok(next),
        }
    }

    /// Like [`step`](Self::step), but in place, and counts the look-ups in `steps`. On success, `tile`
    /// becomes the tile that was found.
    pub(crate) fn advance<L: Ledger>(
        &mut self,
        machine: &Machine,
        frame: &mut Frame,
        first: OpenEdge,
        tile: &mut PlacedTile,
        steps: &mut Steps<L>,
    ) -> Result<(), CoverFault>
        requires right { IsRight (tiling_of machine.now) frame.old self.old }
        requires is_first { first_of self.old.border ≡ Some first }
        ensures frame { GrowsTo (tiling_of machine.now) frame.old frame.new }
        ensures inside { OnOk result (¬ IsFirstOnBoundary (tiling_of machine.now) frame.old self.old
            (length frame.new.digits)) }
        ensures least { (n : ℕ) → length frame.old.digits ≤ n → n < length frame.new.digits
            → IsFirstOnBoundary (tiling_of machine.now) frame.old self.old n }
        ensures next { OnOk result (HasStepped (tiling_of machine.now) frame.old frame.new self.old
            self.new) }
        // This holds for each frame of the same base and seed from which the search may have begun.
        ensures not_beyond { (f : FrameValue) (n : ℕ) → GrowsTo (tiling_of machine.now) f frame.old
            → IsLeastForWindow (tiling_of machine.now) f self.old.window n
            → length frame.old.digits ≤ n → length frame.new.digits ≤ n }
        ensures within { (f : FrameValue) → GrowsTo (tiling_of machine.now) f frame.old
            → IsCoverWithinLimits (tiling_of machine.now) f self.old.window
            → (result ≡ Err NoMemory) ⊎ IsOk result }
        ensures cause { IfErr result (λ fault. HasCoverCause (tiling_of machine.now) frame.old frame.new
            self.old.window fault) }
    {
        let checked = machine.checked();
        search_laws(checked.order());
        grown_fits_law();
        let _usable = checked.uses().kinds();
        self.border.pass();
        self.put_tile(first.tile as usize, tile);
        match frame.step_grow(machine, tile, first.edge, steps) {
            Ok(_) => self.admit(machine, tile),
            Err(limit) => Err(CoverFault::DepthLimit {
                addr: limit.addr,
                edge: limit.edge,
            }),
        }
    }
}
