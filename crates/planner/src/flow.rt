// A greatest allocation of units to cores, or the group that lacks most: the search of `search`, run until it finds no core with room.
ghost use Rattle.std.specs.Prelude.{◌≡◌, ◌<◌, length};
ghost use Rattle.rules.specs.Plan.{at};
ghost use Rattle.planner.specs.Fill.{Filling, FillReady, demanded};
ghost use Rattle.planner.specs.Stock.{ShareFits, PlacedOn};
ghost use Rattle.planner.specs.Search.{known, place_before};
ghost use Rattle.planner.specs.Back.{StepFits, moved};
ghost use Rattle.planner.specs.Filled.{FilledBy, Opening, Closer};

use crate::asked::Asked;
use crate::search::Trail;
use crate::steps::Stock;
use overload::excess;
use sets::Set;

// Tasks that lack units, and the union of their masks.
#[derive(Drop)]
pub(crate) struct Group {
    pub tasks: u64,
    pub cores: u16,
}

// One step of the way back: units of the task at the place p go from the core through which it was found to the core at p. The place
// through which it was found is the next.
fn step_back(stock: &mut Stock, trail: &Trail, p: usize) -> usize
    requires { StepFits stock.old (known trail.now) p }
    ensures place { result ≡ place_before (known trail.now) p }
    ensures moved { stock.new ≡ moved stock.old (known trail.now) p }
{
    let hop = trail.queue[p];
    let task = hop.task as usize;
    let core = hop.core as usize;
    let q = trail.from[task] as usize;
    let earlier = trail.queue[q].core as usize;
    let d = stock.room[core].min(stock.units[task * 16 + earlier]);
    stock.take(task, earlier, d);
    stock.place(task, core, d);
    q
}

// From a core with room the way goes back to a task that lacks units: each step makes room on an earlier core. The task at its end gets
// what the core there has room for.
fn go_back(stock: &mut Stock, trail: &Trail, hit: usize)
    requires { Opening stock.old (known trail.now) hit }
    ensures { Closer stock.old (known trail.now) hit stock.new }
{
    let mut p = hit;
    // each step finds the next place, so no walk over places known before
    while stock.left[trail.queue[p].task as usize] == 0 {
        p = step_back(stock, trail, p);
    }
    let last = trail.queue[p];
    stock.share(last.task as usize, last.core as usize);
}

// Task t gets what core j has room for, if its mask holds the core.
fn place_on(stock: &mut Stock, t: usize, mask: u16, j: usize)
    requires { ShareFits stock.old t j }
    ensures { PlacedOn stock.old t j mask stock.new }
{
    if !mask.has(j) {
        return;
    }
    stock.share(t, j);
}

// Task t takes what the cores of its mask have left, as much as it lacks.
fn place_task(asked: &Asked, stock: &mut Stock, t: usize, mask: u16)
    requires task { t < length asked.now.masks.now }
    requires mask { mask ≡ at asked.now.masks.now t }
    requires filling { Filling (demanded asked.now) stock.old }
    ensures { Filling (demanded asked.now) stock.new }
{
    for j in 0..asked.cores {
        place_on(stock, t, mask, j);
    }
}

// What is asked is lent to be read, and the stock to be changed, so they are two.
// The first round, which spares most searches: all cores have room, and each task takes what the cores of its mask have left.
fn place_first(asked: &Asked, stock: &mut Stock)
    requires { FillReady asked.now.frame stock.old }
    ensures { Filling (demanded asked.now) stock.new }
{
    stock.left[..asked.budgets.len()].copy_from_slice(asked.budgets);
    for (t, mask) in asked.masks.iter().enumerate() {
        place_task(asked, stock, t, *mask);
    }
}

// Search after search, each of which places more units, until no core with room is found. The excess of what was found last decides: all
// budgets have their units, or the smallest group of greatest excess lacks some.
pub(crate) fn fill(asked: &Asked, stock: &mut Stock) -> Result<(), Group>
    requires { FillReady asked.now.frame stock.old }
    ensures { FilledBy (demanded asked.now) stock.new.units result }
{
    place_first(asked, stock);
    let mut trail = Trail::new();
    while let Some(hit) = trail.seek(asked, stock) {
        go_back(stock, &trail, hit);
    }
    if excess(asked.frame, asked.budgets, trail.tasks, trail.cores) == 0 {
        return Ok(());
    }
    Err(Group {
        tasks: trail.tasks,
        cores: trail.cores,
    })
}
