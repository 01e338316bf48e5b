// A chunk of the input taken line by line: each line's answer line is written into the output.
// Of a line that is too long the first 3,073 bytes are kept: they are refused as the whole line is.
// What is kept of a line stays a buffer and a count, as `stream::take_line` takes them and `Fed` speaks of them.
ghost use Rattle.std.specs.Prelude.{◌≤◌, ◌<◌, length};
ghost use Rattle.rules.specs.LineCall.{LineAnswer};
ghost use Rattle.stream.specs.Lines.{AnsweredLine, Fed, Took};

use crate::{LINE_BYTES, OUTPUT_BYTES};
use answerline::LEAST_OUTPUT;
use stream::{Line, Stage};

// An answer line with its line feed.
const LINE_ROOM: usize = LEAST_OUTPUT + 1;

// The answer line of a line, and a line feed.
fn answer(line: &[u8], out: &mut [u8]) -> usize
    requires { 1907 ≤ length out.old }
    ensures few { result ≤ 1907 }
    ensures answered { AnsweredLine LineAnswer line.now out.old 0 out.new result }
{
    let wrote = aurhennig::aurhennig_plan_line(line, &mut out[..LEAST_OUTPUT]);
    out[wrote] = b'\n';
    wrote + 1
}

// The next line of a chunk that is not empty, or what the chunk has of it. A whole line is answered.
fn next(chunk: &[u8], line: &mut [u8; LINE_BYTES], len: usize, out: &mut [u8]) -> Stage
    requires { (0 < length chunk.now) × (len ≤ length line.old) × (1907 ≤ length out.old) }
    ensures { Took LineAnswer 1907 chunk.now 0 line.old len out.old 0 line.new out.new result }
{
    let taken = stream::take_line(chunk, 0, line, len);
    match taken.line {
        Line::Whole(kept) => Stage {
            taken: taken.at,
            len: 0,
            used: answer(&line[..kept], out),
        },
        Line::Begun(kept) => Stage {
            taken: taken.at,
            len: kept,
            used: 0,
        },
    }
}

// Takes the lines of a chunk until it ends or the output has no room for another.
// A `while`: its end is not known before, and no index is counted, since `next` says how far it went.
pub(crate) fn feed(
    chunk: &[u8],
    line: &mut [u8; LINE_BYTES],
    len: usize,
    out: &mut [u8; OUTPUT_BYTES],
) -> Stage
    requires { len ≤ length line.old }
    ensures { Fed LineAnswer chunk.now line.old len out.old 0 line.new out.new result }
{
    let mut stage = Stage {
        taken: 0,
        len,
        used: 0,
    };
    while stage.taken < chunk.len() && LINE_ROOM <= out.len() - stage.used {
        let step = next(
            &chunk[stage.taken..],
            line,
            stage.len,
            &mut out[stage.used..],
        );
        stage = Stage {
            taken: stage.taken + step.taken,
            len: step.len,
            used: stage.used + step.used,
        };
    }
    stage
}
