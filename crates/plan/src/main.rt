// Standard input to standard output: one answer line for each line. Document 01, "Lines".
#![tactic(auto)]

mod lines;

ghost use Rattle.std.specs.Prelude.{◌≤◌, length};
ghost use Rattle.rules.specs.LineCall.{LineAnswer};
ghost use Rattle.stream.specs.Reading.{Ended};
ghost use Rattle.stream.specs.Rounds.{Kept};

use lines::feed;
use std::io::{Read, Write};
use stream::Source;

// One byte more than the longest line that can be well written, 3,072 digits.
const LINE_BYTES: usize = 3073;

// What `io::large_buffer` hands out: room for many answer lines.
const OUTPUT_BYTES: usize = 65536;

// How the program ended: the input at its end, and how many bytes are kept of a line that got no answer.
#[derive(Clone, Copy)]
struct Ending {
    source: Source,
    len: usize,
}

// Every chunk of the input, to its end or until reading or writing fails. `stream` says why each program has its own loop.
fn answer_all<R: Read, W: Write>(
    input: &mut [u8],
    line: &mut [u8; LINE_BYTES],
    out: &mut [u8; OUTPUT_BYTES],
    from: &mut R,
    to: &mut W,
) -> Ending
    requires { 1 ≤ length input.old }
    ensures ended { Ended result.source result.len }
    ensures kept { Kept LineAnswer line.old input.new result.source line.new result.len }
{
    let mut source = Source::start();
    let mut len = 0;
    loop {
        let chunk = source.more(input, from);
        if chunk.at == chunk.end {
            return Ending { source: chunk, len };
        }
        let stage = feed(&input[chunk.at..chunk.end], line, len, out);
        len = stage.len;
        source = chunk.pass_on(stage.taken, &out[..stage.used], to);
    }
}

fn main(rt: HostRuntime) {
    let mut from = rt.stdin();
    let mut to = rt.stdout();
    let mut input = io::large_buffer();
    let mut line = [0u8; LINE_BYTES];
    let mut output = io::large_buffer();
    let end = answer_all(&mut input, &mut line, &mut output, &mut from, &mut to);
    end.source.report(b"plan", &mut rt.stderr());
}
