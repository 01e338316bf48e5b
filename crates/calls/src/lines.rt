// The next line of a chunk, and its answer line in the output.
// Of a line that is too long the first 99,003 bytes are kept: they are refused as the whole line is.
ghost use Rattle.std.specs.Prelude.{◌≤◌, ◌<◌, length};

use crate::lent::answer_line;
use crate::words::CallLine;
use crate::{LINE_BYTES, OUTPUT_BYTES};
use stream::{Line, Stage};

// The answer line of a line, and a line feed.
fn answer(line: CallLine, out: &mut [u8; OUTPUT_BYTES]) -> usize
    ensures { result ≤ OUTPUT_BYTES }
{
    let n = answer_line(line, out);
    out[n] = b'\n';
    n + 1
}

// The next line of a chunk that is not empty, or what the chunk has of it. A whole line is answered. What is kept of a line is a buffer and a
// count, as `stream::take_line` takes them.
pub(crate) fn next(
    chunk: &[u8],
    line: &mut [u8; LINE_BYTES],
    len: usize,
    out: &mut [u8; OUTPUT_BYTES],
) -> Stage
    requires { (0 < length chunk.now) × (len ≤ LINE_BYTES) }
    ensures { (result.len ≤ LINE_BYTES) × (1 ≤ result.taken) × (result.used ≤ OUTPUT_BYTES) }
{
    let taken = stream::take_line(chunk, 0, line, len);
    match taken.line {
        Line::Whole(kept) => Stage {
            taken: taken.at,
            len: 0,
            used: answer(
                CallLine {
                    bytes: &line[..kept],
                },
                out,
            ),
        },
        Line::Begun(kept) => Stage {
            taken: taken.at,
            len: kept,
            used: 0,
        },
    }
}
