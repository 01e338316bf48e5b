// An answer and a count, turned into what C gets by value.
ghost use Rattle.std.specs.Prelude.{◌≡◌, get_or};
ghost use Rattle.rules.specs.Answer.{values_of};
ghost use Rattle.rules.specs.Reply.{reply_of};

use rules::{Answer, Reply};

// The two values that an answer carries, and 0 for one that it has not, as C reads them: first a task, a group or a job, then the cores of a
// group or a missing core. There is no From of a usize for a u64, so a usize is cast.
fn values(answer: Answer) -> (u64, u64)
    ensures { (result.0 ≡ get_or (values_of answer) 0 0) × (result.1 ≡ get_or (values_of answer) 1 0) }
{
    match answer {
        Answer::EmptyMask(task) | Answer::Budget(task) => (task as u64, 0),
        Answer::Overloaded { group, cores } => (group, u64::from(cores)),
        Answer::JobList(job) | Answer::NoUnits(job) => (job as u64, 0),
        Answer::MissingCore { task, core } => (task as u64, u64::from(core)),
        _ => (0, 0),
    }
}

// A refusal counts nothing. The number decides, as in `reply_of`.
pub(crate) fn reply(answer: Answer, count: usize) -> Reply
    ensures { result ≡ reply_of answer count }
{
    let number = u64::from(u8::from(answer));
    let (first, second) = values(answer);
    let count = if number == 0 { count as u64 } else { 0 };
    Reply {
        number,
        first,
        second,
        count,
    }
}
