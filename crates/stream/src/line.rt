// Lines out of a chunk: the bytes of a line are kept in a lent buffer until its line feed comes.
ghost use Rattle.std.specs.Prelude.{◌≡◌, ◌==◌, drop};
ghost use Rattle.std.specs.List.{position};
ghost use Rattle.stream.specs.Taking.{kept_all, taking};

// Each line is "ended by a line feed".
pub(crate) const LINE_FEED: u8 = 10;

// A line that was taken out of a chunk, and how many of its bytes are kept: its line feed came, or the chunk ended before it.
#[derive(Clone, Copy)]
pub enum Line {
    Whole(usize),
    Begun(usize),
}

// Where the next byte of the chunk stands, and the line that was taken up to there.
#[derive(Clone, Copy)]
pub struct Taken {
    pub at: usize,
    pub line: Line,
}

// What a program's step over a chunk leaves: how many of its bytes are taken, how many of the begun line are kept, and how many of the
// output are written.
#[derive(Clone, Copy)]
pub struct Stage {
    pub taken: usize,
    pub len: usize,
    pub used: usize,
}

// More bytes of a line, so many as it has room for. A full line keeps what it holds.
fn keep(line: &mut [u8], len: usize, bytes: &[u8]) -> usize
    ensures { (result, line.new) ≡ kept_all bytes.now line.old len }
{
    if line.len() <= len {
        return len;
    }
    let n = bytes.len().min(line.len() - len);
    line[len..len + n].copy_from_slice(&bytes[..n]);
    len + n
}

// Where the first line feed stands.
fn first_feed(bytes: &[u8]) -> Option<usize>
    ensures { result ≡ position (λ b. b == 10) bytes.now }
{
    bytes.iter().position(|b| *b == LINE_FEED)
}

// Takes the bytes of a chunk from a place on, up to the next line feed and with it, or all. They are kept after the first `len` of `line`,
// so many as it has room for: a program whose lines have a longest length lends one byte more, and sees by it that a line is too long.
// The buffer and its count stay two arguments: `taking` has an answer for any two, also where the count is beyond the buffer.
pub fn take_line(chunk: &[u8], from: usize, line: &mut [u8], len: usize) -> Taken
    ensures { (result, line.new) ≡ taking (drop from chunk.now) from line.old len }
{
    let rest = &chunk[from.min(chunk.len())..];
    match first_feed(rest) {
        Some(n) => Taken {
            at: from + n + 1,
            line: Line::Whole(keep(line, len, &rest[..n])),
        },
        None => Taken {
            at: from + rest.len(),
            line: Line::Begun(keep(line, len, rest)),
        },
    }
}
