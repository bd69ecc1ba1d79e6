//! The search from a supertile down to the tile that holds a point.
ghost use Rattle.std.specs.Prelude.{◌^◌, IfOk, IfErr};
ghost use Rattle.cyclo_points.specs.Point.{IsWithin};
ghost use Rattle.tile_place.specs.FactorPowers.{ArePowers};
ghost use Rattle.tile_place.specs.Searched.{IsMovedSupertile, IsFoundTile, IsSearchFault, values_of_search, holder_of_search, values_under, holder_under};

use crate::inflated_tile::InflatedTile;
use crate::locate_fault::LocateFault;
use crate::machine::Machine;
use crate::moved_supertile::MovedSupertile;
use crate::placed_tile::PlacedTile;
use arrayvec::ArrayVec;
use cyclo_points::point::Point;
use plane_geom::polygons::member;
use tile_shape::address::Address;
use tile_shape::step::Step;

impl Machine {
    /// Finds the tile of a moved supertile that holds a point, with its address and its motion there. Err has
    /// the first value on the way that is refused, or is `NotInside`.
    pub(crate) fn search(
        &self,
        whole: &MovedSupertile<'_>,
        point: &Point,
    ) -> Result<PlacedTile, LocateFault>
        requires whole { IsMovedSupertile self.now whole.now }
        requires point_within { IsWithin (2 ^ 24) point.now }
        ensures found { IfOk result (IsFoundTile self.now.order
            (values_of_search self.now whole.now point.now) (holder_of_search self.now whole.now point.now)) }
        ensures fault { IfErr result (IsSearchFault self.now.order
            (values_of_search self.now whole.now point.now) (holder_of_search self.now whole.now point.now)) }
    {
        let order = self.checked().order();
        let powers = match self.powers(whole.depth) {
            Ok(powers) => powers,
            Err(limit) => return Err(LocateFault::CoordLimit { value: limit.value }),
        };
        let corners = match self.outline(whole.kind, &powers[whole.depth as usize], whole.at) {
            Ok(corners) => corners,
            Err(limit) => return Err(LocateFault::CoordLimit { value: limit.value }),
        };
        if !member(order, corners.as_slice(), point) {
            return Err(LocateFault::NotInside);
        }
        self.descend(whole, point, powers.as_slice())
    }

    /// Goes down from a supertile that holds a point to the tile that holds it.
    fn descend(
        &self,
        whole: &MovedSupertile<'_>,
        point: &Point,
        powers: &[Point],
    ) -> Result<PlacedTile, LocateFault>
        requires whole { IsMovedSupertile self.now whole.now }
        requires point_within { IsWithin (2 ^ 24) point.now }
        requires powers { ArePowers self.now whole.now.depth powers.now }
        ensures found { IfOk result (IsFoundTile self.now.order (values_under self.now whole.now point.now)
            (holder_under self.now whole.now point.now)) }
        ensures fault { IfErr result (IsSearchFault self.now.order
            (values_under self.now whole.now point.now) (holder_under self.now whole.now point.now)) }
    {
        let mut top = whole.kind;
        let mut motion = *whole.at;
        let mut level = whole.depth;
        let mut digits = ArrayVec::new();
        while level > 0 {
            level -= 1;
            let tile = InflatedTile {
                kind: top,
                scale: &powers[level as usize],
                at: &motion,
            };
            match self.holder(&tile, point) {
                Ok(Some(part)) => {
                    digits.insert(
                        0,
                        Step {
                            child: part.child,
                            parent: top,
                        },
                    );
                    top = part.kind;
                    motion = part.motion;
                }
                Ok(None) => return Err(LocateFault::NotInside),
                Err(limit) => return Err(LocateFault::CoordLimit { value: limit.value }),
            }
        }
        Ok(PlacedTile {
            kind: top,
            motion,
            addr: Address { kind: top, digits },
        })
    }
}
