// "The allocation used must be loop-free": cycles are sought and removed until the graph of units comes apart leaf by leaf.
// The units are changed here, so they are lent beside the two sizes; a Grid lends them to be read.
ghost use Rattle.std.specs.Prelude.{◌≡◌, ◌<◌};
ghost use Rattle.stretches.specs.Cell.{cell};
ghost use Rattle.forest.specs.Peeled.{Peeled};
ghost use Rattle.forest.specs.Ring.{Kept, edges};
ghost use Rattle.planner.specs.Seeking.{TaskLeft, SeekReady};
ghost use Rattle.planner.specs.Shifts.{Sound};

use crate::cycle::find_cycle;
use crate::peel::{Gone, peel};
use grid::Grid;
use sets::Set;

// The lowest task that is still there.
fn task_left(tasks: usize, gone: u64) -> Option<usize>
    ensures { TaskLeft tasks gone result }
{
    for i in 0..tasks {
        if !gone.has(i) {
            return Some(i);
        }
    }
    None
}

// One cycle goes: all sums are kept, and there is an edge less at least.
fn remove_cycle(units: &mut [u32; 1024], tasks: usize, cores: usize, gone: Gone, start: usize)
    requires { Sound tasks cores (cell units.old) × SeekReady tasks cores (cell units.old) gone start }
    ensures { Kept tasks cores (cell units.old) (cell units.new) × (edges tasks cores (cell units.new) < edges tasks cores (cell units.old)) }
{
    let grid = Grid {
        units,
        tasks,
        cores,
    };
    let cycle = find_cycle(grid, gone, start);
    let d = cycle.least(units);
    cycle.shift(units, d);
}

// The same sums without a cycle.
pub(crate) fn unloop(units: &mut [u32; 1024], tasks: usize, cores: usize)
    requires { Sound tasks cores (cell units.old) }
    ensures { Kept tasks cores (cell units.old) (cell units.new) × Peeled tasks cores (cell units.new) }
{
    let mut gone = Gone { tasks: 0, cores: 0 };
    loop {
        let grid = Grid {
            units,
            tasks,
            cores,
        };
        gone = peel(grid, gone);
        let Some(start) = task_left(tasks, gone.tasks) else {
            return;
        };
        remove_cycle(units, tasks, cores, gone, start);
    }
}
