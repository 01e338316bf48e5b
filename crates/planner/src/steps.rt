// The units of a partial allocation, with what lacks and what room is left kept beside them, and the elementary steps: units are placed
// on a core, or taken from it.
ghost use Rattle.std.specs.Prelude.{◌≡◌, min};
ghost use Rattle.planner.specs.Stock.{PlaceFits, TakeFits, ShareFits, placed, taken, shared};

#[derive(Drop)]
pub(crate) struct Stock {
    // sixteen numbers a task: its units on each core
    pub units: [u32; 1024],
    // by task: what it lacks of its budget
    pub left: [u32; 64],
    // by core: what it has room for
    pub room: [u32; 16],
}

// A task and a core are places here, so they stay two numbers.
impl Stock {
    // Task i gets d units more on core j.
    pub(crate) fn place(&mut self, i: usize, j: usize, d: u32)
        requires { PlaceFits self.old i j d }
        ensures { self.new ≡ placed self.old i j d }
    {
        self.units[i * 16 + j] += d;
        self.left[i] -= d;
        self.room[j] -= d;
    }

    // d units of task i leave core j.
    pub(crate) fn take(&mut self, i: usize, j: usize, d: u32)
        requires { TakeFits self.old i j d }
        ensures { self.new ≡ taken self.old i j d }
    {
        self.units[i * 16 + j] -= d;
        self.left[i] += d;
        self.room[j] += d;
    }

    // Task i gets what core j has room for, of what it lacks.
    pub(crate) fn share(&mut self, i: usize, j: usize)
        requires { ShareFits self.old i j }
        ensures { self.new ≡ shared self.old i j }
    {
        let d = self.room[j].min(self.left[i]);
        self.place(i, j, d);
    }
}
