//! Adds the tiles of a part of a supertile that meet a window, as runs.
ghost use Rattle.std.specs.Prelude.{◌≡◌, ◌<◌, ◌≤◌, ◌^◌, true, false, length, IfOk, IfSome, IsTrue};
ghost use Rattle.rule_model.specs.Tiling.{tiling_of};
ghost use Rattle.window_descent.specs.Parts.{IsPlacedPart};
ghost use Rattle.window_descent.specs.Rows.{AreRows, levels_of};
ghost use Rattle.window_cover.specs.Descending.{IsJudged};
ghost use Rattle.window_cover.specs.Gathering.{AreGathering, IsGathered};
ghost use Rattle.window_cover.specs.Windows.{IsWindow};

use crate::blocks::Blocks;
use crate::cover::is_far;
use crate::runs::Runs;
use cyclo_points::motion::Motion;
use plane_geom::window::Window;
use tile_place::machine::Machine;
use tile_shape::no_memory::NoMemory;
use tile_shape::step::Step;
use window_descent::part::Part;
use window_descent::placing::place_of;
use window_descent::rows::Rows;
use window_descent::standing::Standing;

/// The greatest coefficient of the shift of a run. A leaf moved by it has no coefficient that is refused.
const FARTHEST: u32 = (1 << 24) - (1 << 20);

impl Runs {
    /// Adds the tiles of a part that meet the window, or all its tiles if `all` is set. Returns false if a
    /// value is refused or there are too many tiles. `path` has the digits coarser than the part's level.
    #[cycle(gathering)]
    pub(crate) fn gather(
        &mut self,
        machine: &Machine,
        rows: &mut Rows,
        blocks: &mut Blocks,
        path: &mut [Step],
        level: u8,
        part: &Part,
        all: bool,
    ) -> Result<bool, NoMemory>
        requires part { IsPlacedPart machine.now part.now }
        requires on_path { level ≤ length path.old }
        requires at_most_64 { length path.old ≤ 64 }
        requires state { AreGathering machine.now self.old rows.old blocks.old }
        requires enough { level < levels_of rows.old }
        ensures { IfOk result (λ done. IsTrue done
            → IsGathered machine.now self.old self.new rows.old rows.new
            blocks.new path.old path.new all level part.now) }
    {
        match self.stands(machine, rows, level, part, all) {
            Some(Standing::Beyond) => Ok(true),
            Some(Standing::Within) => self.take_in(machine, rows, blocks, path, level, part, true),
            Some(Standing::Across) => self.take_in(machine, rows, blocks, path, level, part, false),
            None => Ok(false),
        }
    }

    /// Finds how a part lies relative to the window, unless it is known to be within.
    fn stands(
        &self,
        machine: &Machine,
        rows: &mut Rows,
        level: u8,
        part: &Part,
        all: bool,
    ) -> Option<Standing>
        requires part { IsPlacedPart machine.now part.now }
        requires rows { AreRows machine.now rows.old }
        requires enough { level < levels_of rows.old }
        requires window { IsWindow self.now.leaves.window }
        ensures rows { AreRows machine.now rows.new }
        ensures levels { levels_of rows.new ≡ levels_of rows.old }
        ensures judged { IfSome result
            (IsJudged (tiling_of machine.now) self.now.leaves.window all level part.now) }
    {
        judged(machine, &self.leaves.window(), rows, level, part, all)
    }

    /// Like [`gather`](Self::gather), for a part that must be searched.
    #[cycle(gathering)]
    fn take_in(
        &mut self,
        machine: &Machine,
        rows: &mut Rows,
        blocks: &mut Blocks,
        path: &mut [Step],
        level: u8,
        part: &Part,
        all: bool,
    ) -> Result<bool, NoMemory>
        requires part { IsPlacedPart machine.now part.now }
        requires on_path { level ≤ length path.old }
        requires at_most_64 { length path.old ≤ 64 }
        requires state { AreGathering machine.now self.old rows.old blocks.old }
        requires enough { level < levels_of rows.old }
        requires no_tile { all ≡ false → 0 < level }
        ensures { IfOk result (λ done. IsTrue done
            → IsGathered machine.now self.old self.new rows.old rows.new
            blocks.new path.old path.new all level part.now) }
    {
        if is_run(blocks, level, all) {
            return self.put_run(machine, rows, blocks, path, level, part);
        }
        let below = level - 1;
        let count = machine.checked().rule().child_count(usize::from(part.kind));
        for number in 0..count {
            let child = match rows.child(machine, below, part, number as u8)? {
                Some(child) => child,
                None => return Ok(false),
            };
            path[below as usize] = Step {
                child: number as u8,
                parent: part.kind,
            };
            if !self.gather(machine, rows, blocks, path, below, &child, all)? {
                return Ok(false);
            }
        }
        Ok(true)
    }

    /// Adds all tiles of a part, as a run of its block.
    fn put_run(
        &mut self,
        machine: &Machine,
        rows: &mut Rows,
        blocks: &mut Blocks,
        path: &[Step],
        level: u8,
        part: &Part,
    ) -> Result<bool, NoMemory>
        requires part { IsPlacedPart machine.now part.now }
        requires on_path { level ≤ length path.now }
        requires at_most_64 { length path.now ≤ 64 }
        requires state { AreGathering machine.now self.old rows.old blocks.old }
        requires enough { level < levels_of rows.old }
        requires low { level ≤ 6 }
        ensures { IfOk result (λ done. IsTrue done
            → IsGathered machine.now self.old self.new rows.old rows.new
            blocks.new path.now path.now true level part.now) }
    {
        let _usable = machine.checked();
        let Motion { turn, shift } = part.motion;
        if is_far(&shift, FARTHEST) {
            return Ok(false);
        }
        let block = match blocks.block(machine, rows, &mut self.leaves, level, part.kind, turn)? {
            Some(block) => block,
            None => return Ok(false),
        };
        self.push(&block, Some(shift), &path[level as usize..])
    }
}

/// Returns true if a part is added as a run: all its tiles are wanted, and its level has blocks.
fn is_run(blocks: &Blocks, level: u8, all: bool) -> bool
    requires no_tile { all ≡ false → 0 < level }
    ensures all { IsTrue result → all ≡ true }
    ensures low { IsTrue result → level ≤ blocks.now.height }
    ensures other { result ≡ false → 0 < level }
{
    all && level <= blocks.height
}

/// Finds how a part lies relative to a window, unless it is known to be within.
fn judged(
    machine: &Machine,
    window: &Window,
    rows: &mut Rows,
    level: u8,
    part: &Part,
    all: bool,
) -> Option<Standing>
    requires part { IsPlacedPart machine.now part.now }
    requires rows { AreRows machine.now rows.old }
    requires enough { level < levels_of rows.old }
    requires window { IsWindow window.now }
    ensures rows { AreRows machine.now rows.new }
    ensures levels { levels_of rows.new ≡ levels_of rows.old }
    ensures judged { IfSome result (IsJudged (tiling_of machine.now) window.now all level part.now) }
{
    if all {
        return Some(Standing::Within);
    }
    place_of(machine, window, rows, level, part)
}
