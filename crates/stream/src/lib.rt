// What every program over lines shares: standard input in chunks, a line kept until its line feed comes, large writes, and one line on
// standard error where reading or writing fails. A program's own is its answer to a line, and the loop that asks for it. One loop for
// all would be a public function that requires something of the answer it is lent, and no public function has a `requires`; or it would take a
// trait whose laws say what an answer is and how much room it needs, for two loops of ten lines: no plainer.
#![tactic(auto)]

mod input;
mod line;
mod output;

pub use input::Source;
pub use line::{Line, Stage, Taken, take_line};
