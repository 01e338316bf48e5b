// Standard input to standard output: each line asks for a table check, a move count or a walk, and one answer line is written for it.
// The lines are those of second/README.md, whose program judges the answers. Proved here: no line makes the program fail, and it ends.
#![tactic(auto)]

mod answers;
mod lent;
mod lines;
mod words;

ghost use Rattle.std.specs.Prelude.{◌≤◌, length};

use lines::next;
use std::io::{Read, Write};
use stream::Source;

// One byte more than the longest line that a call can have, 99,002 digits.
const LINE_BYTES: usize = 99003;

// The longest answer line, 99,002 digits, with its line feed.
const OUTPUT_BYTES: usize = 99003;

// Every line of the input, to its end or until reading or writing fails. Each answer line is written by itself. `stream` says why each program
// has its own loop.
fn answer_all<R: Read, W: Write>(
    input: &mut [u8],
    line: &mut [u8; LINE_BYTES],
    out: &mut [u8; OUTPUT_BYTES],
    from: &mut R,
    to: &mut W,
) -> Source {
    let mut source = Source::start();
    let mut len = 0;
    loop {
        let chunk = source.more(input, from);
        if chunk.at == chunk.end {
            return chunk;
        }
        let stage = next(&input[chunk.at..chunk.end], line, len, out);
        len = stage.len;
        source = chunk.pass_on(stage.taken, &out[..stage.used], to);
    }
}

fn main(rt: HostRuntime) {
    let mut from = rt.stdin();
    let mut to = rt.stdout();
    let mut input = io::large_buffer();
    let mut line = [0u8; LINE_BYTES];
    let mut output = [0u8; OUTPUT_BYTES];
    let end = answer_all(&mut input, &mut line, &mut output, &mut from, &mut to);
    end.report(b"calls", &mut rt.stderr());
}
