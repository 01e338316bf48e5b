// What runs before a task on a core, and before a core of a task: document 01, "From allocation to table". One is first, the rest ascend.
ghost use Rattle.std.specs.Prelude.{◌≡◌, ℕ, Some, suc, ◌≤◌, ◌<◌};
ghost use Rattle.rules.specs.Sizes.{max_frame};
ghost use Rattle.rules.specs.Sum.{sum_to, put};
ghost use Rattle.rules.specs.Layout.{ahead};
ghost use Rattle.stretches.specs.Cell.{cell};
ghost use Rattle.layout.specs.Ahead.{Gives, Line, Whole, number_of};

use grid::Grid;

// The units before the i-th, without those of `skip`.
fn sum_before<F: Fn(usize) -> u32 + Copy>(unit: F, skip: usize, i: usize) -> u32
    requires { Line (λ k. F.pre unit k) (λ k r. F.post unit k r) i }
    ensures { (f : ℕ → ℕ) → Gives (λ k r. F.post unit k r) f → result ≡ sum_to i (put skip 0 f) }
{
    let mut sum = 0;
    for k in 0..i {
        if k != skip {
            sum += unit(k);
        }
    }
    sum
}

// What runs before the i-th of a row or a column, whose k-th units are `unit(k)`, if `first` runs first and the rest ascend.
fn ahead<F: Fn(usize) -> u32 + Copy>(unit: F, first: Option<usize>, i: usize) -> u32
    requires { Whole (λ k. F.pre unit k) (λ k r. F.post unit k r) (number_of first) i }
    ensures value { (f : ℕ → ℕ) → Gives (λ k r. F.post unit k r) f → result ≡ ahead (number_of first) f i }
    ensures small { result ≤ max_frame }
{
    match first {
        None => sum_before(unit, i, i),
        Some(k) if k == i => 0,
        Some(k) => unit(k) + sum_before(unit, k, i),
    }
}

// A task and a core are asked to be the grid's where they are used as places: a type for each would be unpacked there.
// What runs before a task on a core that was reached through the task `first`, or that is a root.
pub(crate) fn ahead_on_core(grid: Grid, core: usize, first: Option<u8>, task: usize) -> u32
    requires { (core < grid.cores) ×
        (task < grid.tasks) ×
        (number_of first ≤ grid.tasks) ×
        (sum_to grid.tasks (λ i. cell grid.units.now i core) ≤ max_frame) }
    ensures { (result ≡ ahead (number_of first) (λ i. cell grid.entry.units.now i core) task) × (result ≤ max_frame) }
{
    ahead(|i| grid.units[i * 16 + core], first.map(usize::from), task)
}

// What a task runs before it runs on a core, if it was met on the core `met`.
pub(crate) fn ahead_of_task(grid: Grid, task: usize, met: usize, core: usize) -> u32
    requires { (task < grid.tasks) ×
        (core < grid.cores) ×
        (met < grid.cores) ×
        (sum_to grid.cores (cell grid.units.now task) ≤ max_frame) }
    ensures { (result ≡ ahead (suc met) (cell grid.entry.units.now task) core) × (result ≤ max_frame) }
{
    ahead(|j| grid.units[task * 16 + j], Some(met), core)
}
