// The walk over the cores, step by step as specs/Layout.antt of the rules has it: where each core starts, and which task runs first on it.
// A task and a core are asked to be the grid's, as in `before`.
ghost use Rattle.std.specs.Prelude.{◌≡◌, ℕ, ◌-◌, ◌≤◌, ◌<◌};
ghost use Rattle.rules.specs.Sizes.{max_cores};
ghost use Rattle.rules.specs.Sum.{lowest};
ghost use Rattle.rules.specs.Layout.{reach_one, reach, meet_one, visit, next_core, layout};
ghost use Rattle.stretches.specs.Cell.{cell};
ghost use Rattle.stretches.specs.Small.{Small};
ghost use Rattle.layout.specs.Walking.{walk_of, Kept, latest_start, Reaching, Meeting, left_of, below};

use crate::before::{ahead_of_task, ahead_on_core};
use grid::Grid;
use sets::Set;

// Where a core starts, and the task through which it was reached, which runs first on it. A root was reached through none. The task is a byte:
// sixteen of these lie on the stack, whose bytes include/aurhennig.h names.
#[derive(Clone, Copy)]
pub(crate) struct Begin {
    pub at: u32,
    pub first: Option<u8>,
}

// How far the walk has come: which cores were visited, which were reached, which tasks were met, and how each core begins.
#[derive(Clone, Copy)]
pub(crate) struct Walked {
    pub visited: u16,
    pub reached: u16,
    pub met: u64,
    pub begins: [Begin; 16],
}

impl Walked {
    // Task `task`, met on `core` where it starts at `at`, reaches core k if it has units there.
    fn reach_one(&mut self, grid: Grid, task: usize, core: usize, at: u32, k: usize)
        requires { (k < grid.cores) × Reaching grid.tasks grid.cores grid.units.now task core at self.old }
        ensures { (n : ℕ) →
            Kept
            (reach_one n grid.entry.cores (cell grid.entry.units.now) task core at k (walk_of self.old))
            self.new }
    {
        if grid.units[task * 16 + k] == 0 || k == core {
            return;
        }
        self.begins[k] = Begin {
            at: at + ahead_of_task(grid, task, core, k),
            first: Some(task as u8),
        };
        self.reached = self.reached.with(k);
    }

    // The task reaches its other cores in ascending number.
    fn reach_cores(&mut self, grid: Grid, task: usize, core: usize, at: u32)
        requires { Reaching grid.tasks grid.cores grid.units.now task core at self.old }
        ensures { (n : ℕ) →
            Kept
            (reach n grid.entry.cores (cell grid.entry.units.now) task core at grid.entry.cores (walk_of self.old))
            self.new }
    {
        for k in 0..grid.cores {
            self.reach_one(grid, task, core, at, k);
        }
    }

    // "When a task is first met, its other cores are reached": task `task` on core `core`.
    fn meet_one(&mut self, grid: Grid, core: usize, task: usize)
        requires { (task < grid.tasks) ×
            Meeting grid.tasks grid.cores grid.units.now core (latest_start max_cores) self.old }
        ensures { Kept
            (meet_one grid.entry.tasks grid.entry.cores (cell grid.entry.units.now) core task (walk_of self.old))
            self.new }
    {
        if grid.units[task * 16 + core] == 0 || self.met.has(task) {
            return;
        }
        let begin = self.begins[core];
        let at = begin.at + ahead_on_core(grid, core, begin.first, task);
        self.met = self.met.with(task);
        self.reach_cores(grid, task, core, at);
    }

    // The core is marked, so that it is not visited again, and its tasks are met in ascending number.
    fn visit_core(&mut self, grid: Grid, core: usize)
        requires { Meeting grid.tasks grid.cores grid.units.now core (latest_start (max_cores - 1)) self.old }
        ensures { Kept
            (visit grid.entry.tasks grid.entry.cores (cell grid.entry.units.now) core (walk_of self.old))
            self.new }
    {
        self.visited = self.visited.with(core);
        self.reached = self.reached.with(core);
        for t in 0..grid.tasks {
            self.meet_one(grid, core, t);
        }
    }

    // The lowest core of `wanted` that was not visited: the lowest bit that is left. Without one 16 zeros are counted, and no core is 16.
    fn first_left(&self, wanted: u16, cores: usize) -> Option<usize>
        requires { cores ≤ max_cores }
        ensures { result ≡ below cores (lowest cores (left_of wanted self.now.visited)) }
    {
        let core = (wanted & !self.visited).trailing_zeros() as usize;
        if core < cores { Some(core) } else { None }
    }

    // A core that is reached and not visited is visited first, the lowest of them; without one, the lowest core that is left.
    fn next_core(&self, cores: usize) -> Option<usize>
        requires { cores ≤ max_cores }
        ensures { (n : ℕ) (x : ℕ → ℕ → ℕ) → result ≡ below cores (next_core n cores x (walk_of self.now)) }
    {
        self.first_left(self.reached, cores)
            .or_else(|| self.first_left(u16::MAX, cores))
    }
}

// Every core is visited: where each starts, and which task runs first on it.
pub(crate) fn walk(grid: Grid) -> Walked
    requires { Small grid.tasks grid.cores (cell grid.units.now) }
    ensures { Kept (layout grid.entry.tasks grid.entry.cores (cell grid.entry.units.now)) result }
{
    let mut walked = Walked {
        visited: 0,
        reached: 0,
        met: 0,
        begins: [Begin { at: 0, first: None }; 16],
    };
    // a core a turn; that each turn finds one is no matter here, and the range ends the walk
    for c in 0..grid.cores {
        if let Some(core) = walked.next_core(grid.cores) {
            walked.visit_core(grid, core);
        }
    }
    walked
}
