// The units of an allocation with the number of its tasks and cores, which are within the sizes of document 01: what the table's making and the
// search for loops read units by.
#![tactic(auto)]

ghost use Rattle.std.specs.Prelude.{◌≤◌};
ghost use Rattle.rules.specs.Sizes.{max_tasks, max_cores};

// Unit `task * 16 + core` of the lent list is what the task has on the core. It is read at that index and by no method, which would have to
// test both numbers in the innermost loops.
#[derive(Clone, Copy)]
pub struct Grid<'a> {
    pub units: &'a [u32; 1024],
    pub tasks: usize,
    pub cores: usize,
    ghost few_tasks: { tasks ≤ max_tasks },
    ghost few_cores: { cores ≤ max_cores },
}

impl<'a> Grid<'a> {
    ghost use Rattle.grid.specs.Made.{Made};

    // None where there are more tasks or cores than document 01 has.
    pub fn new(units: &'a [u32; 1024], tasks: usize, cores: usize) -> Option<Grid<'a>>
        ensures { Made units.entry tasks cores result }
    {
        if 64 < tasks || 16 < cores {
            return None;
        }
        Some(Grid {
            units,
            tasks,
            cores,
        })
    }
}
