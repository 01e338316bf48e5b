// An answer's line: "Out, one line for each: the number (1 byte)", and what stands after it.
#![tactic(auto)]

ghost use Rattle.std.specs.Prelude.{◌≡◌, ◌+◌, ◌*◌, ◌≤◌, length};
ghost use Rattle.rules.specs.Sizes.{max_pieces};
ghost use Rattle.rules.specs.Piece.{first_pieces, piece_at};
ghost use Rattle.rules.specs.Line.{answer_line, answer_rest, bytes, piece_line, piece_lines};
ghost use Rattle.fields.specs.Pasted.{pasted};
ghost use Rattle.answerline.specs.Put.{Room, PutAnswer};

use rules::Answer;

// "An output slice below 1,906 bytes is refused": the longest line, of 95 pieces.
pub const LEAST_OUTPUT: usize = 1906;

// "A table: at most 95 pieces".
pub const MOST_PIECES: usize = 95;

// A field of the answer's line, for which the output has room: the rest keeps what it held. Each writer hands back where the next field begins.
// The output and the place are two arguments: a struct of both would only be taken apart here to lend the output on.
fn put(out: &mut [u8], at: usize, width: usize, value: u64) -> usize
    requires { (width ≤ 8) × (at + 2 * width ≤ length out.old) }
    ensures { (out.new ≡ pasted out.old at (bytes width value)) × (result ≡ at + 2 * width) }
{
    fields::put_field(out, at, width, value);
    at + 2 * width
}

// "per piece core (1), task (1), start (4), length (4)": a piece's four numbers.
fn put_piece(out: &mut [u8], at: usize, piece: &[u32]) -> usize
    requires { (at + 20 ≤ length out.old) × (length piece.now ≡ 4) }
    ensures { (out.new ≡ pasted out.old at (piece_line (piece_at piece.now 0))) × (result ≡ at + 20) }
{
    let at = put(out, at, 1, u64::from(piece[0]));
    let at = put(out, at, 1, u64::from(piece[1]));
    let at = put(out, at, 4, u64::from(piece[2]));
    put(out, at, 4, u64::from(piece[3]))
}

// The pieces of an accepted set, after the number and the piece count. The table is a list of numbers, four for each piece, as C lends it.
fn put_pieces(out: &mut [u8], table: &[u32], pieces: usize) -> usize
    requires { (6 + 20 * pieces ≤ length out.old) × (4 * pieces ≤ length table.now) × (pieces ≤ max_pieces) }
    ensures { (out.new ≡ pasted out.old 6 (piece_lines (first_pieces table.now pieces))) × (result ≡ 6 + 20 * pieces) }
{
    let mut at = 6;
    for piece in table[..4 * pieces].chunks_exact(4) {
        at = put_piece(out, at, piece);
    }
    at
}

// What stands after the number: "for 0 the piece count (2) and per piece ..; for 4 and 5 the task (1); for 7 the group (8, bit i for task i)
// and its cores (2); otherwise nothing more", and for 13 "task (1) and core (1)". Hands back where the line ends.
// There is no From of a usize for a u64, so the piece count and the tasks are cast.
fn put_rest(answer: Answer, pieces: usize, table: &[u32], out: &mut [u8]) -> usize
    requires { Room table.now pieces out.old }
    ensures { (out.new ≡ pasted out.old 2 (answer_rest answer (first_pieces table.now pieces))) × (result ≡ 2 + length (answer_rest answer (first_pieces table.now pieces))) }
{
    match answer {
        Answer::Accepted => {
            put(out, 2, 2, pieces as u64);
            put_pieces(out, table, pieces)
        }
        Answer::EmptyMask(task) | Answer::Budget(task) => put(out, 2, 1, task as u64),
        Answer::Overloaded { group, cores } => {
            let at = put(out, 2, 8, group);
            put(out, at, 2, u64::from(cores))
        }
        Answer::MissingCore { task, core } => {
            let at = put(out, 2, 1, task as u64);
            put(out, at, 1, u64::from(core))
        }
        _ => 2,
    }
}

// The whole line at the front of an output that has room for any: what lies beyond keeps. Its arguments are those of `put_answer`.
fn put_line(answer: Answer, pieces: usize, table: &[u32], out: &mut [u8]) -> usize
    requires { Room table.now pieces out.old }
    ensures { (out.new ≡ pasted out.old 0 (answer_line answer (first_pieces table.now pieces))) × (result ≡ length (answer_line answer (first_pieces table.now pieces))) }
{
    put(out, 0, 1, u64::from(u8::from(answer)));
    put_rest(answer, pieces, table, out)
}

// Hands back how many bytes it wrote. Where the output is short, or the table has not so many pieces, it writes nothing and hands back 0: a number
// and no Option, since C gets the same number of `aurhennig_plan_line`.
pub fn put_answer(answer: Answer, pieces: usize, table: &[u32], out: &mut [u8]) -> usize
    ensures { PutAnswer answer table.now pieces out.old result out.new }
{
    if out.len() < LEAST_OUTPUT {
        return 0;
    }
    if MOST_PIECES < pieces {
        return 0;
    }
    if table.len() < 4 * pieces {
        return 0;
    }
    put_line(answer, pieces, table, out)
}
