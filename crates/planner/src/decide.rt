// A set that passed the tests: the greatest allocation decides between a table and the overloaded group.
ghost use Rattle.std.specs.Prelude.{◌+◌, ◌*◌, ◌/◌, ◌≤◌, length};
ghost use Rattle.rules.specs.Plan.{Decided};
ghost use Rattle.stretches.specs.Cell.{cell};
ghost use Rattle.planner.specs.Fill.{demanded};
ghost use Rattle.planner.specs.Filled.{WholeBy};
ghost use Rattle.tests.specs.Given.{Admitted};
ghost use Rattle.planner.specs.Plan.{Settled};

use crate::asked::Asked;
use crate::flow::fill;
use crate::steps::Stock;
use crate::unloop::unloop;
use layout::lay_out;
use rules::{Answer, Planned};

// An allocation loses its loops, and its table is written.
fn settle(asked: &Asked, units: &mut [u32; 1024], table: &mut [u32]) -> usize
    requires room { length asked.now.budgets.now + 2 * asked.now.cores ≤ length table.old / 4 + 1 }
    requires whole { WholeBy (demanded asked.now) units.old }
    ensures { Settled (demanded asked.now) table.old result table.new (cell units.new) }
{
    let tasks = asked.budgets.len();
    unloop(units, tasks, asked.cores);
    // the units of an admitted set without loops fit
    lay_out(asked.frame, tasks, asked.cores, units, table).unwrap()
}

pub(crate) fn decide(
    frame: u32,
    cores: usize,
    budgets: &[u32],
    masks: &[u16],
    table: &mut [u32],
) -> Planned
    requires { Admitted frame cores budgets.now masks.now table.old }
    ensures { Decided frame cores budgets.now masks.now table.old result table.new }
{
    let asked = Asked {
        frame,
        cores,
        budgets,
        masks,
    };
    let mut stock = Stock {
        units: [0; 1024],
        left: [0; 64],
        room: [frame; 16],
    };
    match fill(&asked, &mut stock) {
        Ok(()) => Planned {
            answer: Answer::Accepted,
            pieces: settle(&asked, &mut stock.units, table),
        },
        Err(group) => Planned {
            answer: Answer::Overloaded {
                group: group.tasks,
                cores: group.cores,
            },
            pieces: 0,
        },
    }
}
