// The planner: from a set of tasks to its frame table, or to a numbered refusal.
#![tactic(auto)]

mod asked;
mod cycle;
mod decide;
mod flow;
mod peel;
mod search;
mod shift;
mod side;
mod steps;
mod unloop;

ghost use Rattle.rules.specs.Plan.{PlanAnswer};

use rules::Planned;

// Frame length, core count, a budget and a mask for each task, and a lent table, four numbers a piece: the answer, with the number of
// pieces that now stand in the table. Every other place of the table keeps what it held. Budgets and masks are two lists, as C lends them.
pub fn plan(frame: u32, cores: u32, budgets: &[u32], masks: &[u16], table: &mut [u32]) -> Planned
    ensures { PlanAnswer frame cores budgets.now masks.now table.old result table.new }
{
    match tests::test_plan(frame, cores, budgets, masks, table) {
        Err(answer) => Planned { answer, pieces: 0 },
        // there is no From of a u32 for a usize
        Ok(()) => decide::decide(frame, cores as usize, budgets, masks, table),
    }
}
