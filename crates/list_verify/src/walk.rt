//! The walk through the lines of a list.
ghost use Rattle.std.specs.Prelude.{◌≡◌, ◌<◌, ◌≤◌, ◌+◌, ◌*◌, true, false, length, slice_get, None, Some, IsTrue, IfErr, OnOk};
ghost use Rattle.theory_windows.specs.Outlines.{MeetsBox};
ghost use Rattle.cyclo_points.specs.Order.{points_of};
ghost use Rattle.window_descent.specs.Reach.{AreInReach, IsInReach};
ghost use Rattle.window_cover.specs.Windows.{box_of, window_box};
ghost use Rattle.list_verify.specs.FoundLines.{IsCrossedOver, AreCrossedOver, edges_of_line, edge_of_line, line_between};
ghost use Rattle.list_verify.specs.Walk.{tiling_in, IsOnFrame, IsAtStart, IsAtLine, GoesOnOrStops, Stops, HasEnded, IsRightListing, IsNotRight};
ghost use Rattle.list_verify.specs.Walked.{first_refused_at};

use crate::crossed_edges::{CrossedEdges, Side};
use crate::found_lines::FoundLines;
use crate::line_index::LineIndex;
use crate::line_tile::{no_tile, put_line};
use crate::list_fault::ListFault;
use crate::list_laws::walk_laws;
use crate::window_edges::edge_meets;
use arrayvec::ArrayVec;
use cyclo_points::point::Point;
use edge_tables::steps::Steps;
use lazy_walk::frame::Frame;
use listing_text::entry::Entry;
use plane_geom::window::Window;
use std::alloc::Global;
use std::marker::Brand;
use std::sync::ledger::{Blank, Ledger};
use tile_place::machine::Machine;
use tile_place::placed_tile::PlacedTile;

/// A walk through the lines of a list. It goes from tile to tile across edges that meet the window, and looks
/// for each tile among the lines.
#[derive(Clone, Copy)]
pub(crate) struct Walk<'a> {
    pub(crate) machine: &'a Machine,
    pub(crate) window: &'a Window,
    /// The lines, each lifted to the depth of the frame.
    pub(crate) lines: &'a [Entry],
    pub(crate) index: &'a LineIndex,
}

impl<'a> Walk<'a> {
    /// Walks to the end. Err has the first fault of the walk, or else the first line that it has not found.
    pub(crate) fn run(&self, alloc: Global, frame: &mut Frame) -> Result<(), ListFault>
        requires on_frame { IsOnFrame self.now frame.old }
        ensures right { OnOk result (IsRightListing self.now frame.old frame.new) }
        ensures fault { IfErr result (IsNotRight self.now frame.old frame.new) }
    {
        let mut found = match FoundLines::new(alloc, self.lines.len()) {
            Ok(found) => found,
            Err(_) => return Err(ListFault::NoMemory),
        };
        match self.go::<Brand>(frame, &mut found, Blank::new(1)) {
            Ok(()) => {}
            Err(fault) => return Err(fault),
        }
        match found.first_unmarked() {
            None => Ok(()),
            Some(line) => Err(ListFault::Stray { line: line + 1 }),
        }
    }

    /// Walks from the tile at the centre of the window across edges that meet it, and marks the lines that it
    /// finds. Look-ups are counted on a ledger of this name.
    fn go<L: Ledger>(
        &self,
        frame: &mut Frame,
        found: &mut FoundLines,
        blank: Blank,
    ) -> Result<(), ListFault>
        requires name { blank.name ≡ L.name }
        requires parts { blank.parts ≡ L.parts }
        requires some { 0 < blank.parts }
        requires begins { IsAtStart self.now frame.old found.old }
        ensures ended { OnOk result (HasEnded self.now frame.old frame.new found.new) }
        ensures fault { IfErr result (Stops self.now frame.old frame.new) }
    {
        walk_laws(self.machine);
        let mut steps = Steps::<L>::new(blank);
        let mut tile = no_tile();
        match self.find_centre(frame, found) {
            Ok(_) => {}
            Err(fault) => return Err(fault),
        }
        let mut place: usize = 0;
        while place < found.lines.len() {
            let line = found.lines[place];
            match self.cross_edges(frame, found, line, &mut tile, &mut steps) {
                Ok(()) => place += 1,
                Err(fault) => return Err(fault),
            }
        }
        Ok(())
    }

    /// Looks for the tile that holds the centre of the window, and returns the number of its line.
    fn find_centre(&self, frame: &mut Frame, found: &mut FoundLines) -> Result<u32, ListFault>
        requires begins { IsAtStart self.now frame.old found.old }
        ensures step { GoesOnOrStops self.now frame.old frame.new found.old found.new result }
        ensures centre_found { OnOk result (first_refused_at (tiling_in self.now) frame.old
            self.now.window.now ≡ None) }
    {
        walk_laws(self.machine);
        match frame.contain(self.machine, &self.window.centre) {
            Ok(tile) => found.look_up(self.lines, self.index, &tile),
            Err(limit) => Err(ListFault::CoordLimit { value: limit.value }),
        }
    }

    /// Crosses the edges, which meet the window, of the tile of a found line, and looks for each tile across.
    /// It omits edges that were crossed from their other sides.
    fn cross_edges<L: Ledger>(
        &self,
        frame: &mut Frame,
        found: &mut FoundLines,
        line: u32,
        tile: &mut PlacedTile,
        steps: &mut Steps<L>,
    ) -> Result<(), ListFault>
        requires at_line { IsAtLine self.now frame.old found.old line }
        ensures step { GoesOnOrStops self.now frame.old frame.new found.old found.new result }
        ensures crossed { OnOk result (AreCrossedOver (tiling_in self.now) frame.old self.now.window.now
            self.now.lines.now found.new.lines.items line
            (edges_of_line (tiling_in self.now) self.now.lines.now line)) }
    {
        walk_laws(self.machine);
        let own = &self.lines[line as usize];
        let mut corners = ArrayVec::new();
        self.machine
            .put_corners(own.address.kind, &own.motion, &mut corners);
        for edge in 0..corners.len() {
            let side = Side {
                line,
                edge: edge as u8,
            };
            if self.is_left(corners.as_slice(), &found.crossed, side) {
                match self.cross_edge(frame, found, side, tile, steps) {
                    Ok(()) => {}
                    Err(fault) => return Err(fault),
                }
            }
        }
        Ok(())
    }

    /// Returns true if an edge of a line's tile, with these corners, meets the window, and has not been
    /// crossed from its other side.
    fn is_left(&self, corners: &[Point], crossed: &CrossedEdges, side: Side) -> bool
        requires exists { side.edge < length corners.now }
        requires few { length corners.now ≤ 12 }
        requires within { AreInReach corners.now }
        requires centre_within { IsInReach self.now.window.now }
        requires marked { side.line * 12 + side.edge < length crossed.now.marks.items }
        ensures meets { IsTrue result → MeetsBox (points_of self.now.machine.now.order).real
            (window_box self.now.machine.now.order self.now.window.now)
            (line_between self.now.machine.now.order corners.now side.edge) }
        ensures over { result ≡ false → MeetsBox (points_of self.now.machine.now.order).real
            (window_box self.now.machine.now.order self.now.window.now)
            (line_between self.now.machine.now.order corners.now side.edge)
            → slice_get crossed.now.marks.items (side.line * 12 + side.edge) ≡ Some true }
    {
        !crossed.has(side) && edge_meets(self.machine, self.window, corners, side.edge as usize)
    }

    /// Crosses an edge, which meets the window, of the tile of a found line, and looks for the tile across. It
    /// marks the edge that leads back, which need not be crossed.
    fn cross_edge<L: Ledger>(
        &self,
        frame: &mut Frame,
        found: &mut FoundLines,
        side: Side,
        tile: &mut PlacedTile,
        steps: &mut Steps<L>,
    ) -> Result<(), ListFault>
        requires at_line { IsAtLine self.now frame.old found.old side.line }
        requires edge_exists { side.edge < edges_of_line (tiling_in self.now) self.now.lines.now side.line }
        requires edge_meets { MeetsBox (points_of self.now.machine.now.order).real
            (box_of (tiling_in self.now) self.now.window.now)
            (edge_of_line (tiling_in self.now) frame.old self.now.lines.now side.line side.edge) }
        ensures step { GoesOnOrStops self.now frame.old frame.new found.old found.new result }
        ensures crossed { OnOk result (IsCrossedOver (tiling_in self.now) frame.old self.now.window.now
            self.now.lines.now found.new.lines.items side.line side.edge) }
    {
        walk_laws(self.machine);
        put_line(&self.lines[side.line as usize], tile);
        let edge = match frame.step_grow(self.machine, tile, side.edge, steps) {
            Ok(edge) => edge,
            Err(limit) => return Err(limit.into()),
        };
        match found.look_up(self.lines, self.index, tile) {
            Ok(line) => {
                found.crossed.put(Side { line, edge });
                Ok(())
            }
            Err(fault) => Err(fault),
        }
    }
}
