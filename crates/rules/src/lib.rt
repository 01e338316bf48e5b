// The answers of every call, by value. What each number and each carried value means stands in specs/Answer.antt;
// the rules of document 01 stand in specs/, one idea a file. There is almost no code here.
#![tactic(auto)]

ghost use Rattle.rules.specs.Answer.{AnswerOf, NumberOf};

// "one of accepted, refused, refused with a place, or overloaded with its group": the cases carry nothing,
// a task or job number, a task with a core, or a task set with its cores. A table or a list of finishes stands beside the answer.
// Accepted is one of its cases, and not the Ok of a Result: document 01, "Where each language form belongs", has one enum.
#[derive(Clone, Copy, PartialEq, Eq)]
pub enum Answer {
    Accepted,
    FrameLength,
    CoreCount,
    TaskCount,
    EmptyMask(usize),
    Budget(usize),
    ShortTable,
    Overloaded { group: u64, cores: u16 },
    NotTable,
    JobList(usize),
    NoUnits(usize),
    ShortFinishes,
    BadLine,
    MissingCore { task: usize, core: u32 },
}

// What is wrong with a mask: it is empty, or it names a missing core, the lowest such.
#[derive(Clone, Copy, PartialEq, Eq)]
pub enum MaskFault {
    Empty,
    Missing(u32),
}

// The planner's answer with the number of pieces that it wrote: 0 for every refusal. The answer keeps its Accepted, as above: what a customer
// signs (`accepted_signed`) reads it.
#[derive(Clone, Copy, PartialEq, Eq)]
pub struct Planned {
    pub answer: Answer,
    pub pieces: usize,
}

// The answer of the move count with the moves: 0 for every refusal. The answer keeps its Accepted, as above.
#[derive(Clone, Copy, PartialEq, Eq)]
pub struct Counted {
    pub answer: Answer,
    pub moves: usize,
}

// What each call on plain arrays hands back to C, by value: the number of the answer, the values that it carries, and a count. C reads numbers.
#[repr(C)]
#[derive(Clone, Copy, PartialEq, Eq)]
pub struct Reply {
    pub number: u64,
    pub first: u64,
    pub second: u64,
    pub count: u64,
}

// An answer's number, as documents 01 and 02 have it.
impl From<Answer> for u8 {
    ghost from_gives = { NumberOf };

    fn from(a: Answer) -> u8 {
        match a {
            Answer::Accepted => 0,
            Answer::FrameLength => 1,
            Answer::CoreCount => 2,
            Answer::TaskCount => 3,
            Answer::EmptyMask(_) => 4,
            Answer::Budget(_) => 5,
            Answer::ShortTable => 6,
            Answer::Overloaded { group: _, cores: _ } => 7,
            Answer::NotTable => 8,
            Answer::JobList(_) => 9,
            Answer::NoUnits(_) => 10,
            Answer::ShortFinishes => 11,
            Answer::BadLine => 12,
            Answer::MissingCore { task: _, core: _ } => 13,
        }
    }
}

// Tests that refuse nothing accept.
impl From<Result<(), Answer>> for Answer {
    ghost from_gives = { AnswerOf };

    fn from(tested: Result<(), Answer>) -> Answer {
        match tested {
            Ok(()) => Answer::Accepted,
            Err(refusal) => refusal,
        }
    }
}
