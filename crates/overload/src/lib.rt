// Overload: when no allocation exists, which group says so, and how far the budgets of a group exceed its cores.
// "For a group of tasks let its excess be the sum of its budgets less F × the number of cores in the union of its masks."
#![tactic(auto)]

ghost use Rattle.std.specs.Prelude.{◌≡◌, ◌-◌, length};
ghost use Rattle.rules.specs.Allocation.{limit_of};
ghost use Rattle.rules.specs.Plan.{at};
ghost use Rattle.rules.specs.Excess.{group_budget, capacity};

use sets::Set;

// The sum of the group's budgets. A group of 64 bits names no task from 64 on, so the sum stops there.
fn group_budget(budgets: &[u32], group: u64) -> u64
    ensures { result ≡ group_budget (length budgets.now) (at budgets.now) group }
{
    budgets
        .iter()
        .take(64)
        .enumerate()
        .filter(|(i, _)| group.has(*i))
        .map(|(_, budget)| u64::from(*budget))
        .sum()
}

// Budgets and groups come as C lends them, a list and two numbers.
// The count of ones gives the capacity of the cores; where it is enough the excess is not above 0, and the answer is 0.
#[tactic(auto, using(crate::proofs::GroupSum::capacity_ones))]
pub fn excess(frame: u32, budgets: &[u32], group: u64, cores: u16) -> u64
    ensures { result
        ≡ group_budget (length budgets.now) (at budgets.now) group - capacity 16 (limit_of frame) cores }
{
    let need = group_budget(budgets, group);
    let room = u64::from(frame) * u64::from(cores.count_ones());
    need.saturating_sub(room)
}
