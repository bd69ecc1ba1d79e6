//! The tiles around a vertex.
ghost use Rattle.std.specs.Prelude.{◌≡◌, ◌≤◌, ◌↔◌, All, [], length, IsTrue, IfOk, OnOk, OnErr};
ghost use Rattle.std.specs.List.{AllZip};
ghost use Rattle.theory_addresses.specs.Address.{depth};
ghost use Rattle.tile_shape.specs.Views.{address_of};
ghost use Rattle.rule_model.specs.Tiling.{tiling_of};
ghost use Rattle.theory_walks.specs.Frames.{whole};
ghost use Rattle.star_walk.specs.Corners.{HasVertex};
ghost use Rattle.star_walk.specs.Sought.{IsStarFound, EndsStarSearch};
ghost use Rattle.star_walk.specs.Found.{HasTurned, IsRaised};

use crate::corner::Corner;
use crate::star::Star;
use crate::star_fault::StarFault;
use crate::star_laws::star_laws;
use crate::step_round::step_round;
use arrayvec::ArrayVec;
use edge_tables::steps::Steps;
use lazy_walk::frame::Frame;
use seeded_growth::laws::grown_fits_law;
use std::sync::ledger::Ledger;
use tile_place::machine::Machine;
use tile_shape::address::Address;

impl Star {
    /// Finds exactly the tiles of the frame that have a vertex of the base, in turning order from the base.
    /// They replace the tiles that the star had. After each tile comes the one across the edge of it that
    /// ends at the vertex.
    ///
    /// The frame grows to the least depth, not below its own, at which the vertex is on no edge of the
    /// frame's polygon. This call is for a caller that finds many stars and keeps one place for them;
    /// [`star`] returns a single one.
    ///
    /// # Errors
    ///
    /// - `DepthLimit`: at depth 64, a tile that has the vertex has its edge that ends there on the boundary.
    /// - `TooBig`: more than 64 tiles have the vertex.
    ///
    /// If both hold, it is open which one is returned. After an error the star has no tile.
    pub fn find<L: Ledger>(
        &mut self,
        machine: &Machine,
        frame: &mut Frame,
        vertex: u8,
        steps: &mut Steps<L>,
    ) -> Result<(), StarFault>
        requires vertex { HasVertex (tiling_of machine.now) frame.old vertex }

        // The frame grows, and is never deeper than is enough for the vertex, whatever is returned. The call
        // succeeds if and only if depth 64 is enough and at most 64 tiles have the vertex there. Each error
        // comes only for its cause, and leaves no tile.
        ensures ended { EndsStarSearch (tiling_of machine.now) frame.old frame.new vertex result }
        ensures none_refused { OnErr result (self.new.corners.items ≡ []) }

        // Exactly the tiles of the frame that have the vertex, each exactly once and in its place, with the
        // number of the vertex there. They are in turning order, and the last one leads back to the base.
        ensures star { OnOk result (IsStarFound (tiling_of machine.now) frame.old frame.new vertex
            self.new.corners.items) }
    {
        let checked = machine.checked();
        star_laws(checked.order());
        grown_fits_law();
        let _usable = checked.uses().kinds();
        self.corners.clear();
        if let Err(fault) = turn(machine, frame, vertex, &mut self.corners, steps) {
            self.corners.clear();
            return Err(fault);
        }
        raise_all(frame, self.corners.as_mut_slice());
        Ok(())
    }
}

/// Returns the tiles of the frame that have a vertex of the base, as [`Star::find`] finds them, with its
/// errors.
///
/// The result has room for 64 tiles, which clears 12.8 kB for each call. A caller that finds many stars keeps
/// one `Star` and calls `find` on it.
pub fn star<L: Ledger>(
    machine: &Machine,
    frame: &mut Frame,
    vertex: u8,
    steps: &mut Steps<L>,
) -> Result<Star, StarFault>
    requires vertex { HasVertex (tiling_of machine.now) frame.old vertex }

    // As for `find`: how the search ends, and the tiles that have the vertex.
    ensures ended { EndsStarSearch (tiling_of machine.now) frame.old frame.new vertex result }
    ensures star { IfOk result (λ star. IsStarFound (tiling_of machine.now) frame.old frame.new vertex
        star.corners.items) }
{
    let mut star = Star::new();
    star.find(machine, frame, vertex, steps)?;
    Ok(star)
}

/// Turns around the vertex from the base until it is back. Puts the corners in turning order, each with the
/// address that it had when it was found.
fn turn<L: Ledger>(
    machine: &Machine,
    frame: &mut Frame,
    vertex: u8,
    corners: &mut ArrayVec<Corner, 64>,
    steps: &mut Steps<L>,
) -> Result<(), StarFault>
    requires none_yet { corners.old.items ≡ [] }
    requires vertex { HasVertex (tiling_of machine.now) frame.old vertex }
    ensures ended { EndsStarSearch (tiling_of machine.now) frame.old frame.new vertex result }
    ensures turned { OnOk result (HasTurned (tiling_of machine.now) frame.old frame.new vertex
        corners.new.items) }
{
    let checked = machine.checked();
    star_laws(checked.order());
    grown_fits_law();
    let _usable = checked.uses().kinds();
    let mut corner = Corner {
        tile: frame.base_tile(machine),
        vertex,
    };
    loop {
        corners.push(corner.copy());
        step_round(machine, frame, &mut corner, steps)?;
        if is_base(frame, &corner.tile.addr) {
            return Ok(());
        }
        if corners.len() == 64 {
            return Err(StarFault::TooBig);
        }
    }
}

/// Returns true if an address is that of the base in the frame.
fn is_base(frame: &Frame, addr: &Address) -> bool
    ensures { IsTrue result ↔ (address_of addr.now ≡ whole frame.now) }
{
    addr.kind == frame.base().kind && addr.digits.as_slice() == frame.digits().as_slice()
}

/// Lifts the tiles of corners to the depth of the frame.
fn raise_all(frame: &Frame, corners: &mut [Corner])
    requires no_deeper { All (λ (c : Corner). depth (address_of c.tile.addr) ≤ length frame.now.digits)
        corners.old }
    ensures raised { AllZip (IsRaised frame.now) corners.old corners.new }
{
    for corner in corners.iter_mut() {
        frame.raise(&mut corner.tile.addr);
    }
}
