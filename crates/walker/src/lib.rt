// The job walker: "The table repeats from instant 0." A job costs two passes at most over the walked task's own pieces,
// however far away its finish lies: one for the units before its begin, one for the last unit that it asks.
#![tactic(auto)]

mod clock;
mod joblist;
mod service;
mod span;

ghost use Rattle.rules.specs.Walked.{WalkAnswer};
ghost use Rattle.walker.specs.Gathered.{FrameOf};
ghost use Rattle.rules.specs.Answer.{answer_of};
ghost use Rattle.walker.specs.Jobs.{SpansAnswer, TaskAnswer};

use crate::joblist::Jobs;
use crate::service::Service;
use crate::span::Span;
use rules::Answer;

// The tests 10 and 11, and then the steps.
pub(crate) fn walk_spans(service: &Service, jobs: &Jobs, finishes: &mut [u64]) -> Result<(), Answer>
    ensures { SpansAnswer service.now.frame service.now.spans.now jobs.now.releases.now jobs.now.units.now finishes.old (answer_of result) finishes.new }
{
    if let Some(job) = jobs.waiting(service.total) {
        return Err(Answer::NoUnits(job));
    }
    if finishes.len() < jobs.releases.len() {
        return Err(Answer::ShortFinishes);
    }
    clock::finish_all(service, jobs, finishes);
    Ok(())
}

// The walk over a frame table with a job list that passed its test. Table and task are handed on as C lends them.
pub(crate) fn walk_task(
    frame: u32,
    table: &[u32],
    task: u32,
    jobs: &Jobs,
    finishes: &mut [u64],
) -> Result<(), Answer>
    requires { FrameOf frame table.now }
    ensures { TaskAnswer frame table.now task jobs.now.releases.now jobs.now.units.now finishes.old (answer_of result) finishes.new }
{
    let mut room = [Span { start: 0, len: 0 }; 95];
    let count = span::gather(frame, table, task, &mut room);
    let service = Service::new(frame, &room[..count]);
    walk_spans(&service, jobs, finishes)
}

// The tests 1, 2, 8 and 9 before it.
pub(crate) fn walk_tested(
    frame: u32,
    cores: u32,
    table: &[u32],
    task: u32,
    releases: &[u64],
    units: &[u32],
    finishes: &mut [u64],
) -> Result<(), Answer>
    ensures { WalkAnswer frame cores table.now task releases.now units.now finishes.old (answer_of result) finishes.new }
{
    table::test_table(frame, cores, table)?;
    let jobs = Jobs::new(releases, units)?;
    walk_task(frame, table, task, &jobs, finishes)
}

// Each job's finish, by "The walker tests 1, 2, 8, 9, 10, 11."
pub fn walk(
    frame: u32,
    cores: u32,
    table: &[u32],
    task: u32,
    releases: &[u64],
    units: &[u32],
    finishes: &mut [u64],
) -> Answer
    ensures { WalkAnswer frame cores table.now task releases.now units.now finishes.old result finishes.new }
{
    Answer::from(walk_tested(frame, cores, table, task, releases, units, finishes))
}
