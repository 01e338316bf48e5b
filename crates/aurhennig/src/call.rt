// "The same call, one line in and one line out, is offered to the C executive on lent byte slices, both without the line feed."
ghost use Rattle.std.specs.Prelude.{◌≤◌, length};
ghost use Rattle.rules.specs.Sizes.{least_output};
ghost use Rattle.rules.specs.LineCall.{CallAnswer};
ghost use Rattle.aurhennig.specs.Answered.{SetAnswered};

use answerline::{LEAST_OUTPUT, MOST_PIECES, put_answer};
use rules::Answer;
use setline::read_set;

// A table's pieces have four numbers each.
const TABLE: usize = 4 * MOST_PIECES;

// The most tasks that the byte of their count can name; the planner refuses more than 64.
const MOST_TASKS: usize = 255;

// A set is planned on a table of 95 pieces, and answered.
fn answer_set(frame: u32, cores: u32, budgets: &[u32], masks: &[u16], output: &mut [u8]) -> usize
    requires { least_output ≤ length output.old }
    ensures { SetAnswered frame cores budgets.now masks.now output.old result output.new }
{
    let mut table = [0u32; TABLE];
    let planned = planner::plan(frame, cores, budgets, masks, &mut table);
    let answer = planned.answer;
    put_answer(answer, planned.pieces, &table, output)
}

// A line's set is read and answered; a line that is not well written is answered with 12, which has no pieces. It hands back how many bytes it wrote
// at the front of `output`; the rest keeps what it held. A refused output is 0 bytes: the C interface has this number, and no Option.
pub fn aurhennig_plan_line(input: &[u8], output: &mut [u8]) -> usize
    ensures { CallAnswer input.now output.old result output.new }
{
    if output.len() < LEAST_OUTPUT {
        return 0;
    }
    let mut budgets = [0u32; MOST_TASKS];
    let mut masks = [0u16; MOST_TASKS];
    let Some(set) = read_set(input, &mut budgets, &mut masks) else {
        return put_answer(Answer::BadLine, 0, &[], output);
    };
    answer_set(
        set.frame,
        set.cores,
        &budgets[..set.tasks],
        &masks[..set.tasks],
        output,
    )
}
