// Line forms: document 01, "Lines". Digits, fields over the width, a field written into a lent output, and a reader over one lent line.
// Every program that reads or writes lines stands over these.
#![tactic(auto)]

mod digits;
mod number;
mod paste;
mod reader;

pub use digits::all_digits;
pub use number::field_at;
pub use paste::put_field;
pub use reader::Reader;
