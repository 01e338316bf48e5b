// The calls that C makes. The line call: document 01, "Lines", one line in and one line out, on lent byte slices. Beside it the planner, the table
// check, the move count and the walk on plain arrays. Only these are public.
#![tactic(auto)]

mod arrays;
mod call;
mod reply;

pub use arrays::{aurhennig_check_table, aurhennig_count_moves, aurhennig_plan, aurhennig_walk};
pub use call::aurhennig_plan_line;
