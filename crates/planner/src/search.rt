// The search for a core with room: breadth first from the tasks that lack units. A task reaches the cores of its mask, a full core the
// tasks with units on it. Each core is queued once, with the task through which it was reached; each task keeps the place in the queue
// through which it was found.
ghost use Rattle.std.specs.Prelude.{◌≡◌, ◌≤◌, length};
ghost use Rattle.rules.specs.Sizes.{max_cores, max_tasks};
ghost use Rattle.rules.specs.Sum.{sum_to};
ghost use Rattle.rules.specs.Sets.{has};

use crate::asked::Asked;
use crate::steps::Stock;
use sets::Set;

// A core of the queue, and the task that reached it: bytes, as are the places in Trail, for the stack that include/aurhennig.h names.
#[derive(Clone, Copy)]
pub(crate) struct Hop {
    pub core: u8,
    pub task: u8,
}

// What a search found.
#[derive(Drop)]
pub(crate) struct Trail {
    // the cores in the order in which they were reached, up to the tail: there is no heap for a list that grows
    pub queue: [Hop; 16],
    // by task: the place of the queue through which it was found; any for one that lacks units, where the way back ends. An Option would be
    // taken apart at each step back
    pub from: [u8; 64],
    // so many cores are queued
    pub tail: usize,
    // the tasks and the cores found
    pub tasks: u64,
    pub cores: u16,
    ghost long: { (length queue ≡ max_cores) × (length from ≡ max_tasks) },
    ghost counted: { tail ≡ sum_to max_cores (has cores) },
}

impl Trail {
    ghost use Rattle.std.specs.Prelude.{ℕ, ◌<◌};
    ghost use Rattle.planner.specs.Search.{Holds, Reached, Met, Swept, Sight, known};

    // Nothing is found.
    #[tactic(auto, using(crate::proofs::SearchLaws::counted_nothing))]
    pub(crate) fn new() -> Trail {
        Trail {
            queue: [Hop { core: 0, task: 0 }; 16],
            from: [0; 64],
            tail: 0,
            tasks: 0,
            cores: 0,
        }
    }

    // Core j is queued for task t, if its mask holds it and no task has reached it.
    fn reach_one(&mut self, asked: &Asked, t: u8, mask: u16, j: usize)
        requires { j < asked.now.cores }
        ensures reached { Reached asked.now.cores t mask (known self.old) (known self.new) }
        ensures holds { has mask j ≤ has self.new.cores j }
    {
        if !mask.has(j) || self.cores.has(j) {
            return;
        }
        self.queue[self.tail] = Hop {
            core: j as u8,
            task: t,
        };
        self.tail += 1;
        self.cores = self.cores.with(j);
    }

    // Task t reaches the cores of its mask.
    fn reach(&mut self, asked: &Asked, t: u8, mask: u16)
        ensures reached { Reached asked.now.cores t mask (known self.old) (known self.new) }
        ensures holds { Holds asked.now.cores mask self.new.cores }
    {
        if (mask | self.cores) == self.cores {
            return;
        }
        for j in 0..asked.cores {
            self.reach_one(asked, t, mask, j);
        }
    }

    // Task t, if it weighs anything and was not found before, is found through the place p, and reaches the cores of its mask, which comes along
    // from the walk over the masks.
    fn find(&mut self, asked: &Asked, t: usize, mask: u16, weight: u32, p: u8)
        requires { t < length asked.now.masks.now }
        ensures { Met asked.now.cores t mask weight p (known self.old) (known self.new) }
    {
        if weight == 0 || self.tasks.has(t) {
            return;
        }
        self.from[t] = p;
        self.tasks = self.tasks.with(t);
        self.reach(asked, t as u8, mask);
    }

    // The tasks that weigh anything are found through the place p.
    fn sweep<W: Fn(usize) -> u32>(&mut self, asked: &Asked, p: u8, weight: W)
        requires { (t : ℕ) → t < length asked.now.masks.now → W.pre weight t }
        ensures { Swept asked.now.cores asked.now.masks.now (W.post weight) p (length asked.now.masks.now) (known self.old) (known self.new) }
    {
        for (t, mask) in asked.masks.iter().enumerate() {
            self.find(asked, t, *mask, weight(t), p);
        }
    }

    // Core after core of the queue, until one has room: its place, or none if no core has any.
    pub(crate) fn seek(&mut self, asked: &Asked, stock: &Stock) -> Option<usize>
        ensures { Sight asked.now.cores asked.now.masks.now stock.now (known self.new) result }
    {
        self.tail = 0;
        self.tasks = 0;
        self.cores = 0;
        self.sweep(asked, 0, |t| stock.left[t]);
        let mut head = 0;
        // no walk over the queue: it grows as it is read
        while head < self.tail {
            let core = self.queue[head].core as usize;
            if 0 < stock.room[core] {
                return Some(head);
            }
            self.sweep(asked, head as u8, |t| stock.units[t * 16 + core]);
            head += 1;
        }
        None
    }
}
