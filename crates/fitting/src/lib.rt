// Whether units may be laid out as a table: sizes, rows, columns and room, by one look at each row and one at each column. A unit may be any 32-bit number, so the sums are of 64 bits.
#![tactic(auto)]

ghost use Rattle.std.specs.Prelude.{◌≡◌, ◌≤◌, ◌<◌};
ghost use Rattle.rules.specs.Sizes.{max_cores};
ghost use Rattle.stretches.specs.Cell.{cell};
ghost use Rattle.fitting.specs.Fits.{Fits, Tells};
ghost use Rattle.fitting.specs.Fitting.{AtMost, row_of, column_of, used_of, RowsAnswer};

use grid::Grid;

// The units of a task, and the number of its cores.
#[derive(Clone, Copy)]
struct Row {
    sum: u64,
    used: usize,
}

// What the row of a task holds.
fn row_of(grid: Grid, task: usize) -> Row
    requires { task < grid.tasks }
    ensures { (result.sum ≡ row_of grid.entry.cores (cell grid.entry.units.now) task) ×
        (result.used ≡ used_of grid.entry.cores (cell grid.entry.units.now) task) ×
        (result.used ≤ max_cores) }
{
    let units = grid.units;
    let mut row = Row { sum: 0, used: 0 };
    for &unit in &units[task * 16..task * 16 + grid.cores] {
        row.sum += u64::from(unit);
        row.used += usize::from(unit != 0);
    }
    row
}

// Each row is held against the frame: the number of used cells, or None for a row above it.
fn test_rows(grid: Grid, frame: u32) -> Option<usize>
    ensures { RowsAnswer frame grid.entry.tasks grid.entry.cores (cell grid.entry.units.now) result }
{
    let mut used = 0;
    for t in 0..grid.tasks {
        let row = row_of(grid, t);
        if u64::from(frame) < row.sum {
            return None;
        }
        used += row.used;
    }
    Some(used)
}

// The units on a core.
fn column_sum(grid: Grid, core: usize) -> u64
    requires { core < grid.cores }
    ensures { result ≡ column_of grid.entry.tasks (cell grid.entry.units.now) core }
{
    (0..grid.tasks)
        .map(|i| u64::from(grid.units[i * 16 + core]))
        .sum()
}

// Whether each column is at most the frame.
fn columns_fit(grid: Grid, frame: u32) -> bool
    ensures { Tells (AtMost frame grid.entry.cores (column_of grid.entry.tasks (cell grid.entry.units.now))) result }
{
    (0..grid.cores).all(|j| column_sum(grid, j) <= u64::from(frame))
}

// Whether the units fit, with room for `room` pieces.
pub fn units_fit(frame: u32, tasks: usize, cores: usize, units: &[u32; 1024], room: usize) -> bool
    ensures { Tells (Fits frame tasks cores (cell units.now) room) result }
{
    let Some(grid) = Grid::new(units, tasks, cores) else {
        return false;
    };
    (1..=1_000_000).contains(&frame)
        && cores != 0
        && columns_fit(grid, frame)
        && test_rows(grid, frame).is_some_and(|used| used + cores <= room)
}
