// Answer lines: "number (1); for 9 and 10 the job (4)", and for 0 what the call found.
ghost use Rattle.std.specs.Prelude.{◌+◌, ◌*◌, ◌≤◌, length};

use fields::put_field;
use rules::Answer;

// The number of an answer.
fn put_number(out: &mut [u8], answer: Answer) {
    put_field(out, 0, 1, u64::from(u8::from(answer)));
}

// The values, of `width` bytes each, after the number. Hands back where the line ends.
fn put_values(out: &mut [u8], values: &[u64], width: usize) -> usize
    requires { (width ≤ 8) × (length values.now ≤ 6187) }
    ensures { result ≤ 2 + 16 * length values.now }
{
    let mut at = 2;
    for value in values {
        put_field(out, at, width, *value);
        at += 2 * width;
    }
    at
}

// The job after the number. Hands back where the line ends.
fn put_job(out: &mut [u8], job: usize) -> usize
    ensures { result ≤ 10 }
{
    // there is no From of a usize for a u64
    put_field(out, 2, 4, job as u64);
    10
}

// The line of an answer, and where it ends.
pub(crate) fn put_answer(out: &mut [u8], answer: Answer, values: &[u64], width: usize) -> usize
    requires { (width ≤ 8) × (length values.now ≤ 6187) }
    ensures { result ≤ 10 + 16 * length values.now }
{
    put_number(out, answer);
    match answer {
        Answer::Accepted => put_values(out, values, width),
        Answer::JobList(job) | Answer::NoUnits(job) => put_job(out, job),
        _ => 2,
    }
}

// "A line that is not so written .. is answered `0c`."
pub(crate) fn put_bad_line(out: &mut [u8]) -> usize
    ensures { result ≤ 10 }
{
    put_number(out, Answer::BadLine);
    2
}
