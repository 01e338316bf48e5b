// The five calls of `aurhennig` under their C names: each hands its arguments on and promises the same. include/aurhennig.h is their manual.
// They stand twice, since a static library exports and hands on nothing, and `plan` stands on a library.
#![tactic(auto)]

ghost use Rattle.std.specs.Prelude.{◌≡◌};
ghost use Rattle.rules.specs.LineCall.{CallAnswer};
ghost use Rattle.rules.specs.Replies.{PlanReply, WalkReply, check_reply, moves_reply};

use rules::Reply;

// The table of a set, at the front of the lent one; `count` is the number of its pieces.
#[unsafe(no_mangle)]
pub extern "C" fn aurhennig_plan(
    frame: u32,
    cores: u32,
    budgets: &[u32],
    masks: &[u16],
    table: &mut [u32],
) -> Reply
    ensures { PlanReply frame cores budgets.now masks.now table.old result table.new }
{
    aurhennig::aurhennig_plan(frame, cores, budgets, masks, table)
}

// Whether the table is a frame table.
#[unsafe(no_mangle)]
pub extern "C" fn aurhennig_check_table(frame: u32, cores: u32, table: &[u32]) -> Reply
    ensures { result ≡ check_reply frame cores table.now }
{
    aurhennig::aurhennig_check_table(frame, cores, table)
}

// `count` is the moves of a frame table.
#[unsafe(no_mangle)]
pub extern "C" fn aurhennig_count_moves(frame: u32, cores: u32, table: &[u32]) -> Reply
    ensures { result ≡ moves_reply frame cores table.now }
{
    aurhennig::aurhennig_count_moves(frame, cores, table)
}

// The finish of each job of a task, at the front of the lent list; `count` is the number of finishes.
#[unsafe(no_mangle)]
pub extern "C" fn aurhennig_walk(
    frame: u32,
    cores: u32,
    table: &[u32],
    task: u32,
    releases: &[u64],
    units: &[u32],
    finishes: &mut [u64],
) -> Reply
    ensures { WalkReply frame cores table.now task releases.now units.now finishes.old result finishes.new }
{
    aurhennig::aurhennig_walk(frame, cores, table, task, releases, units, finishes)
}

// It hands back how many bytes it wrote at the front of `output`; the rest keeps what it held.
#[unsafe(no_mangle)]
pub extern "C" fn aurhennig_plan_line(input: &[u8], output: &mut [u8]) -> usize
    ensures { CallAnswer input.now output.old result output.new }
{
    aurhennig::aurhennig_plan_line(input, output)
}
