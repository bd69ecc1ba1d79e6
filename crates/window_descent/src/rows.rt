//! The children of supertiles, and the bounds of supertiles. Each row of children is made once.
ghost use Rattle.std.specs.Prelude.{◌≡◌, ◌+◌, ◌<◌, ◌≤◌, ◌^◌, length, IfOk, IfSome, IsTrue};
ghost use Rattle.cyclo_points.specs.Order.{points_of};
ghost use Rattle.cyclo_points.specs.Point.{point_in, IsWithin};
ghost use Rattle.theory_walks.specs.Ancestors.{factor_power};
ghost use Rattle.rule_model.specs.Tiling.{tiling_of};
ghost use Rattle.rule_model.specs.Views.{rule_of};
ghost use Rattle.theory_substitution.specs.Rule.{children_of};
ghost use Rattle.window_descent.specs.Parts.{IsPartAt, IsPlacedPart};
ghost use Rattle.window_descent.specs.Rows.{AreRows, IsChildRow, IsLonger, IsShifted, scale_of};
ghost use Rattle.window_descent.specs.Rows.{levels_of, HasRow, HasChildren, IsRowOf};

use crate::bounds::Bounds;
use crate::part::{Part, part_of};
use crate::row_key::RowKey;
use arrayvec::ArrayVec;
use cyclo_points::arithmetic::{add, refused};
use cyclo_points::motion::Motion;
use cyclo_points::point::Point;
use std::alloc::Global;
use tile_place::machine::Machine;
use tile_shape::no_memory::NoMemory;

/// The children and the bounds of supertiles, by level, kind and turn. They are those of a supertile that is
/// turned, and not shifted. A row is made when one of its children is first needed.
#[derive(Drop)]
pub struct Rows {
    /// The powers of the inflation factor, from 0.
    pub(crate) powers: ArrayVec<Point, 65>,
    /// For a level, a kind and a turn: where the row begins, if it is made.
    firsts: Vec<Option<u32>>,
    /// The children of all rows that are made, one row after another.
    children: Vec<Part>,
    /// For a level, a kind and a turn: the bounds of the supertile's vertices, if they are made.
    pub(crate) bounds: Vec<Option<Bounds>>,
}

impl Rows {
    /// Makes rows for the levels from 0 to `depth`, all still empty. Returns None if a power of the inflation
    /// factor is refused, and Err if memory runs out.
    pub fn new(alloc: Global, machine: &Machine, depth: u8) -> Result<Option<Rows>, NoMemory>
        requires at_most_64 { depth ≤ 64 }
        ensures rows { IfOk result (λ made. IfSome made (AreRows machine.now)) }
        ensures levels { IfOk result (λ made. IfSome made (λ rows. levels_of rows ≡ depth + 1)) }
    {
        let powers = match machine.powers(depth) {
            Ok(powers) => powers,
            Err(_) => return Ok(None),
        };
        let places = powers.len() * 256;
        Ok(Some(Rows {
            powers,
            firsts: vec![in alloc; None; places]?,
            children: Vec::new(alloc),
            bounds: vec![in alloc; None; places]?,
        }))
    }

    /// Returns the inflation factor to the power of a level.
    pub fn scale(&self, machine: &Machine, level: u8) -> Point
        requires rows { AreRows machine.now self.now }
        requires exists { level < levels_of self.now }
        ensures power { point_in machine.now.order result ≡ factor_power (tiling_of machine.now) level }
        ensures within { IsWithin (2 ^ 24) result }
    {
        self.powers.as_slice()[level as usize]
    }

    /// Returns a child of a part, or None if a shift is refused. The children are of level `level`. Err if
    /// memory runs out.
    pub fn child(
        &mut self,
        machine: &Machine,
        level: u8,
        part: &Part,
        number: u8,
    ) -> Result<Option<Part>, NoMemory>
        requires rows { AreRows machine.now self.old }
        requires level_exists { level < levels_of self.old }
        requires part { IsPlacedPart machine.now part.now }
        requires exists { number < length (children_of (rule_of machine.now) part.now.kind) }
        ensures rows { AreRows machine.now self.new }
        ensures levels { levels_of self.new ≡ levels_of self.old }
        ensures child { IfOk result (λ child. IfSome child
            (IsPartAt machine.now part.now.kind number (scale_of self.old level) part.now.motion)) }
    {
        let row = RowKey {
            level,
            kind: part.kind,
            turn: part.motion.turn,
        };
        match self.first(machine, row)? {
            Some(first) => {
                let child = &self.children[first as usize + number as usize];
                Ok(moved(child, &part.motion.shift))
            }
            None => Ok(None),
        }
    }

    /// Returns where the row of a level, a kind and a turn begins, and makes the row first if needed. Returns
    /// None if a shift in it is refused.
    fn first(&mut self, machine: &Machine, row: RowKey) -> Result<Option<u32>, NoMemory>
        requires rows { AreRows machine.now self.old }
        requires row { HasRow machine.now self.old row }
        ensures rows { AreRows machine.now self.new }
        ensures same_powers { self.new.powers.items ≡ self.old.powers.items }
        ensures row { IfOk result (λ first. IfSome first
            (HasChildren machine.now self.old row self.new.children.items)) }
    {
        let _usable = machine.checked();
        match self.firsts[row.place()] {
            Some(first) => Ok(Some(first)),
            None => self.make(machine, row),
        }
    }

    /// Makes the row of a level, a kind and a turn, and returns where it begins. Returns None if a shift in
    /// it is refused.
    #[cold]
    #[inline(never)]
    fn make(&mut self, machine: &Machine, row: RowKey) -> Result<Option<u32>, NoMemory>
        requires rows { AreRows machine.now self.old }
        requires row { HasRow machine.now self.old row }
        ensures rows { AreRows machine.now self.new }
        ensures same_powers { self.new.powers.items ≡ self.old.powers.items }
        ensures row { IfOk result (λ first. IfSome first
            (HasChildren machine.now self.old row self.new.children.items)) }
    {
        let first = match u32::try_from(self.children.len()) {
            Ok(first) => first,
            Err(_) => return Ok(None),
        };
        if !push_row(
            machine,
            &self.powers.as_slice()[row.level as usize],
            row,
            &mut self.children,
        )? {
            return Ok(None);
        }
        let _usable = machine.checked();
        self.firsts[row.place()] = Some(first);
        Ok(Some(first))
    }
}

/// Appends the children of a kind, as parts of a supertile that is turned and not shifted. Returns false if
/// one of the shifts is refused.
fn push_row(
    machine: &Machine,
    scale: &Point,
    row: RowKey,
    children: &mut Vec<Part>,
) -> Result<bool, NoMemory>
    requires row { IsRowOf machine.now row }
    requires scale_within { IsWithin (2 ^ 24) scale.now }
    ensures longer { IsLonger children.old.items children.new.items }
    ensures row { IfOk result (λ done. IsTrue done
        → IsChildRow machine.now scale.now row.kind row.turn children.new.items (length children.old.items)) }
{
    let parent = Part {
        kind: row.kind,
        motion: Motion {
            turn: row.turn,
            shift: Point { c: [0, 0, 0, 0] },
        },
    };
    let count = machine.checked().rule().child_count(usize::from(row.kind));
    for number in 0..count {
        match part_of(machine, &parent, number as u8, scale) {
            Some(child) => children.push(child)?,
            None => return Ok(false),
        }
    }
    Ok(true)
}

/// Returns a child of a supertile that is shifted as well, or None if the new shift is refused.
fn moved(child: &Part, shift: &Point) -> Option<Part>
    requires child_within { IsWithin (2 ^ 24) child.now.motion.shift }
    requires shift_within { IsWithin (2 ^ 24) shift.now }
    ensures moved { IfSome result (IsShifted child.now shift.now) }
{
    let sum = add(&child.motion.shift, shift);
    if refused(&sum) {
        return None;
    }
    Some(Part {
        kind: child.kind,
        motion: Motion {
            turn: child.motion.turn,
            shift: sum,
        },
    })
}
