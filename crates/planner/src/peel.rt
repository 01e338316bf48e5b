// A graph of units is taken apart leaf by leaf: a task or a core that has at most one neighbour left goes.
ghost use Rattle.stretches.specs.Cell.{cell};
ghost use Rattle.planner.specs.Seeking.{Stripped, Bare};

use crate::side::Side;
use grid::Grid;
use sets::Set;

// The tasks and the cores that are gone.
#[derive(Clone, Copy)]
pub(crate) struct Gone {
    pub(crate) tasks: u64,
    pub(crate) cores: u16,
}

// Goes on until nothing is loose.
pub(crate) fn peel(grid: Grid, mut gone: Gone) -> Gone
    requires { Stripped grid.tasks grid.cores (cell grid.units.now) gone }
    ensures { Stripped grid.entry.tasks grid.entry.cores (cell grid.entry.units.now) result × Bare grid.entry.tasks grid.entry.cores (cell grid.entry.units.now) result }
{
    let tasks = Side::tasks(grid);
    let cores = Side::cores(grid);
    loop {
        if let Some(t) = tasks.loose(gone.tasks, gone.cores) {
            gone.tasks = gone.tasks.with(t);
        } else if let Some(c) = cores.loose(gone.cores, gone.tasks) {
            gone.cores = gone.cores.with(c);
        } else {
            return gone;
        }
    }
}
