// A cycle in a graph of units in which every vertex that is still there has two links: a way from task to core to task that never turns
// back comes to a vertex again, since there are at most sixteen cores.
ghost use Rattle.std.specs.Prelude.{◌≡◌, ℕ, ◌≤◌, ◌<◌, length};
ghost use Rattle.rules.specs.Plan.{at};
ghost use Rattle.stretches.specs.Cell.{cell};
ghost use Rattle.forest.specs.Ring.{Ring};
ghost use Rattle.planner.specs.Seeking.{PlaceIn, SeekReady};

use crate::peel::Gone;
use crate::side::Side;
use grid::Grid;

// The cycle stands in the places lo to hi - 1 of the two lists: each task there has units on its core and on the core before it, round
// the cycle. They are two lists with two bounds, as `Ring` (forest) speaks of a cycle. The numbers are bytes for the stack that
// include/aurhennig.h names.
#[derive(Clone, Copy)]
pub(crate) struct Cycle {
    pub(crate) tasks: [u8; 18],
    pub(crate) cores: [u8; 18],
    pub(crate) lo: usize,
    pub(crate) hi: usize,
    ghost some: { lo < hi },
    ghost places: { hi ≤ 18 },
    ghost few_tasks: { (i : ℕ) → lo ≤ i → i < hi → at tasks i < 64 },
    ghost few_cores: { (i : ℕ) → lo ≤ i → i < hi → at cores i < 16 },
}

// The first place of a number in a list.
fn place_of(list: &[u8], value: u8) -> Option<usize>
    ensures { PlaceIn (at list.now) (length list.now) value result }
{
    list.iter().position(|x| *x == value)
}

// The way from a task that is still there, until it meets itself.
pub(crate) fn find_cycle(grid: Grid, gone: Gone, start: usize) -> Cycle
    requires { SeekReady grid.tasks grid.cores (cell grid.units.now) gone start }
    ensures { Ring grid.entry.tasks grid.entry.cores (cell grid.entry.units.now) (at result.tasks) (at result.cores) result.lo result.hi }
{
    let by_task = Side::tasks(grid);
    let by_core = Side::cores(grid);
    let mut tasks = [start as u8; 18];
    let mut cores = [0; 18];
    let mut k = 0;
    // the core through which the way came to task k
    let mut from = None;
    // no range to walk: the way ends where it meets itself
    loop {
        let next = k + 1;
        let t = tasks[k] as usize;
        let c = by_task.other(t, gone.cores, from);
        let met = place_of(&cores[..k], c as u8);
        cores[k] = c as u8;
        if let Some(a) = met {
            return Cycle {
                tasks,
                cores,
                lo: a + 1,
                hi: next,
            };
        }
        let u = by_core.other(c, gone.tasks, Some(t));
        if let Some(b) = place_of(&tasks[..next], u as u8) {
            return Cycle {
                tasks,
                cores,
                lo: b,
                hi: next,
            };
        }
        tasks[next] = u as u8;
        k = next;
        from = Some(c);
    }
}
