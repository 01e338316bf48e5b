// From units to the table: document 01, "From allocation to table". The walk gives where each core starts, and the pieces
// of one core after the other are put into the lent table. The table stays beside the grid and the frame: a struct that held it would have to
// be lent on at each call, which is no plainer. A task is asked to be the grid's, as in `before`.
ghost use Rattle.std.specs.Prelude.{◌≡◌, ◌++◌, ◌+◌, ◌*◌, ◌/◌, ◌≤◌, ◌<◌, length, drop};
ghost use Rattle.rules.specs.Piece.{numbers_of};
ghost use Rattle.rules.specs.Table.{table_of};
ghost use Rattle.stretches.specs.Cell.{cell};
ghost use Rattle.fitting.specs.Fits.{Fits};
ghost use Rattle.layout.specs.Pieces.{Room, task_pieces, core_pieces, cores_pieces, Inserts, Appends, OnCore, OnCores};

use crate::before::ahead_on_core;
use crate::pieces::{Part, add_stretch};
use crate::walking::{Begin, Walked, walk};
use grid::Grid;

// A core to be laid: its number, how it begins, and the pieces of the table before its own.
#[derive(Clone, Copy)]
struct Core {
    pub core: usize,
    pub begin: Begin,
    pub from: usize,
}

// The pieces of a task are put in among those of the core, which go up to `count`. The number of pieces then.
fn lay_task(table: &mut [u32], grid: Grid, frame: u32, on: Core, count: usize, task: usize) -> usize
    requires { OnCore frame grid.tasks grid.cores grid.units.now on ×
        (task < grid.tasks) ×
        (on.from ≤ count) ×
        Room (count + length (task_pieces frame grid.tasks grid.units.now on task)) (length table.old) }
    ensures { (result ≡ count + length (task_pieces frame grid.entry.tasks grid.entry.units.now on task)) ×
        Inserts on.from count (task_pieces frame grid.entry.tasks grid.entry.units.now on task) table.old table.new }
{
    let len = grid.units[task * 16 + on.core];
    if len == 0 {
        return count;
    }
    let start = (on.begin.at + ahead_on_core(grid, on.core, on.begin.first, task)) % frame;
    // Both numbers are below 64, so that a cast cuts nothing off.
    let part = Part {
        core: on.core as u32,
        task: task as u32,
        start,
        len,
    };
    add_stretch(table, on.from, count, frame, part)
}

// The pieces of a core follow those of the cores before. The number of pieces then.
fn lay_core(table: &mut [u32], grid: Grid, frame: u32, on: Core) -> usize
    requires { OnCore frame grid.tasks grid.cores grid.units.now on ×
        Room (on.from + length (core_pieces frame grid.tasks grid.units.now on grid.tasks)) (length table.old) }
    ensures { (result ≡ on.from + length (core_pieces frame grid.entry.tasks grid.entry.units.now on grid.entry.tasks)) ×
        Appends on.from (core_pieces frame grid.entry.tasks grid.entry.units.now on grid.entry.tasks) table.old table.new }
{
    let mut count = on.from;
    for t in 0..grid.tasks {
        count = lay_task(table, grid, frame, on, count, t);
    }
    count
}

// The pieces of one core after the other, from the front of the table. Their number.
fn lay_cores(table: &mut [u32], grid: Grid, frame: u32, walked: &Walked) -> usize
    requires { OnCores frame grid.tasks grid.cores grid.units.now walked.now (length table.old) }
    ensures { (result ≡ length (cores_pieces frame grid.entry.tasks grid.entry.cores grid.entry.units.now walked.now grid.entry.cores)) ×
        (table.new ≡
        numbers_of (cores_pieces frame grid.entry.tasks grid.entry.cores grid.entry.units.now walked.now grid.entry.cores) ++
        drop (4 * result) table.old) }
{
    let mut count = 0;
    for j in 0..grid.cores {
        let on = Core {
            core: j,
            begin: walked.begins[j],
            from: count,
        };
        count = lay_core(table, grid, frame, on);
    }
    count
}

// The table that the units fix. What lies beyond its pieces keeps what it held. Their number.
pub(crate) fn lay_all(frame: u32, grid: Grid, table: &mut [u32]) -> usize
    requires { Fits frame grid.tasks grid.cores (cell grid.units.now) (length table.old / 4) }
    ensures { (result ≡ length (table_of frame grid.entry.tasks grid.entry.cores (cell grid.entry.units.now))) ×
        (table.new ≡ numbers_of (table_of frame grid.entry.tasks grid.entry.cores (cell grid.entry.units.now)) ++ drop (4 * result) table.old) }
{
    let walked = walk(grid);
    lay_cores(table, grid, frame, &walked)
}
