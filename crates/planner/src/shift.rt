// Loops are removed by shifting units round the cycle, with all task and core sums kept (001, section 5).
ghost use Rattle.std.specs.Prelude.{◌≡◌, ◌+◌, ◌^◌, ◌≤◌, ◌<◌};
ghost use Rattle.rules.specs.Plan.{at};
ghost use Rattle.stretches.specs.Cell.{cell};
ghost use Rattle.forest.specs.Ring.{Moved, prior, Least};
ghost use Rattle.planner.specs.Shifts.{Shiftable, ShiftedAll};

use crate::cycle::Cycle;

// d units of a task go from one core to another.
fn move_units(units: &mut [u32; 1024], task: usize, from: usize, to: usize, d: u32)
    requires { (task < 64) × (from < 16) × (to < 16) × (from ≡ to → ⊥) × (d ≤ cell units.old task from) × (cell units.old task to + d < 2 ^ 32) }
    ensures { Moved (cell units.old) (cell units.new) task from to d }
{
    units[task * 16 + from] -= d;
    units[task * 16 + to] += d;
}

impl Cycle {
    // The core before place i, round the cycle.
    fn core_before(&self, i: usize) -> usize
        requires { (self.now.lo ≤ i) × (i < self.now.hi) }
        ensures { result ≡ prior (at self.now.cores) self.now.lo self.now.hi i }
    {
        if i == self.lo {
            return self.cores[self.hi - 1] as usize;
        }
        self.cores[i - 1] as usize
    }

    // The units at one place of the cycle.
    fn units_at(&self, units: &[u32; 1024], i: usize) -> u32
        requires { (self.now.lo ≤ i) × (i < self.now.hi) }
        ensures { result ≡ cell units.now (at self.now.tasks i) (at self.now.cores i) }
    {
        units[self.tasks[i] as usize * 16 + self.cores[i] as usize]
    }

    // The least amount on the edges that are lowered.
    pub(crate) fn least(&self, units: &[u32; 1024]) -> u32
        ensures { Least (cell units.now) (at self.now.tasks) (at self.now.cores) self.now.lo self.now.hi result }
    {
        let mut d = self.units_at(units, self.lo);
        for i in self.lo + 1..self.hi {
            d = d.min(self.units_at(units, i));
        }
        d
    }

    // All shifts, one task after another.
    pub(crate) fn shift(&self, units: &mut [u32; 1024], d: u32)
        requires { Shiftable (cell units.old) self.now d }
        ensures { ShiftedAll (cell units.old) (cell units.new) self.now d }
    {
        for i in self.lo..self.hi {
            move_units(
                units,
                self.tasks[i] as usize,
                self.cores[i] as usize,
                self.core_before(i),
                d,
            );
        }
    }
}
