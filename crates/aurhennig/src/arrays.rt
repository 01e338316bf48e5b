// The calls on plain arrays: each is one of the proved functions, and its answer as a reply.
ghost use Rattle.std.specs.Prelude.{◌≡◌};
ghost use Rattle.rules.specs.Replies.{PlanReply, WalkReply, check_reply, moves_reply};

use crate::reply::reply;
use rules::Reply;

// The table of a set, at the front of the lent one; `count` is the number of its pieces.
pub fn aurhennig_plan(
    frame: u32,
    cores: u32,
    budgets: &[u32],
    masks: &[u16],
    table: &mut [u32],
) -> Reply
    ensures { PlanReply frame cores budgets.now masks.now table.old result table.new }
{
    let planned = planner::plan(frame, cores, budgets, masks, table);
    let answer = planned.answer;
    reply(answer, planned.pieces)
}

// Whether the table is a frame table.
pub fn aurhennig_check_table(frame: u32, cores: u32, table: &[u32]) -> Reply
    ensures { result ≡ check_reply frame cores table.now }
{
    let answer = table::check_table(frame, cores, table);
    reply(answer, 0)
}

// `count` is the moves of a frame table.
pub fn aurhennig_count_moves(frame: u32, cores: u32, table: &[u32]) -> Reply
    ensures { result ≡ moves_reply frame cores table.now }
{
    let counted = moves::count_moves(frame, cores, table);
    let answer = counted.answer;
    reply(answer, counted.moves)
}

// The finish of each job of a task, at the front of the lent list; `count` is the number of finishes.
pub fn aurhennig_walk(
    frame: u32,
    cores: u32,
    table: &[u32],
    task: u32,
    releases: &[u64],
    units: &[u32],
    finishes: &mut [u64],
) -> Reply
    ensures { WalkReply frame cores table.now task releases.now units.now finishes.old result finishes.new }
{
    let answer = walker::walk(frame, cores, table, task, releases, units, finishes);
    reply(answer, releases.len())
}
