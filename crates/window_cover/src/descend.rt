//! Adds the tiles of a part of a supertile, part by part.
ghost use Rattle.std.specs.Prelude.{◌≡◌, ◌<◌, ◌≤◌, true, length, IfOk, IsTrue};
ghost use Rattle.rule_model.specs.Tiling.{tiling_of};
ghost use Rattle.window_descent.specs.Parts.{IsPlacedPart};
ghost use Rattle.window_descent.specs.Rows.{AreRows, levels_of};
ghost use Rattle.window_cover.specs.Descending.{IsDescended, IsTakenIn, found_part};

use crate::admit::MOST_TILES;
use crate::cover::Cover;
use crate::found_tile::FoundTile;
use tile_place::machine::Machine;
use tile_shape::no_memory::NoMemory;
use tile_shape::step::Step;
use window_descent::part::Part;
use window_descent::rows::Rows;

impl Cover {
    /// Adds all tiles of a part. Returns false if a value is refused or there are too many tiles. `path` has
    /// the digits coarser than the part's level.
    pub(crate) fn take_all(
        &mut self,
        machine: &Machine,
        rows: &mut Rows,
        path: &mut [Step],
        level: u8,
        part: &Part,
    ) -> Result<bool, NoMemory>
        requires part { IsPlacedPart machine.now part.now }
        requires on_path { level ≤ length path.old }
        requires at_most_64 { length path.old ≤ 64 }
        requires rows { AreRows machine.now rows.old }
        requires enough { level < levels_of rows.old }
        ensures rows { AreRows machine.now rows.new }
        ensures levels { levels_of rows.new ≡ levels_of rows.old }
        ensures found { IfOk result (λ done. IsTrue done
            → IsDescended (tiling_of machine.now) self.old self.new path.old path.new true level part.now) }
    {
        if level == 0 {
            return self.put(machine, part, path);
        }
        let below = level - 1;
        let count = machine.checked().rule().child_count(usize::from(part.kind));
        for number in 0..count {
            let child = match rows.child(machine, below, part, number as u8)? {
                Some(child) => child,
                None => return Ok(false),
            };
            path[below as usize] = Step {
                child: number as u8,
                parent: part.kind,
            };
            if !self.take_all(machine, rows, path, below, &child)? {
                return Ok(false);
            }
        }
        Ok(true)
    }

    /// Adds a tile. Returns false if there are too many.
    fn put(&mut self, machine: &Machine, part: &Part, digits: &[Step]) -> Result<bool, NoMemory>
        requires part { IsPlacedPart machine.now part.now }
        requires at_most_64 { length digits.now ≤ 64 }
        ensures put { IfOk result (λ done. IsTrue done
            → IsTakenIn self.old self.new (found_part part.now digits.now)) }
    {
        if self.found.len() >= MOST_TILES {
            return Ok(false);
        }
        let _usable = machine.checked();
        let first = self.digits.len();
        let depth = digits.len() as u8;
        self.digits.extend_from_slice(digits)?;
        self.found.push(FoundTile {
            motion: part.motion,
            first,
            kind: part.kind,
            depth,
        })?;
        Ok(true)
    }
}
