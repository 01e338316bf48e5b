// The input in chunks, through a reader that is lent. A last line without a line feed is given one, so that a program answers each line at its
// line feed.
ghost use Rattle.std.specs.Prelude.{◌≡◌};
ghost use Rattle.stream.specs.Reading.{Handed, Last, Read, started, stopped_at};

use crate::line::LINE_FEED;
use std::io;

// "the input counts as ended after 1,000,000,000,000 bytes": so many, and the line feed that the last line may still get.
const INPUT_ROOM: usize = 1000000000001;

// The input: how many bytes may still come; from where to where what is left of the chunk stands in the buffer; whether the chunk's last
// byte, and so the last byte that came, began or went on with a line; and whether reading or writing failed.
// Two numbers and no Range, which is not Copy. `begun` is no refusal: `Last` and `Ended` read it. Two
// flags of failure and no Option, since writing may fail after reading did: `Passed` keeps both.
#[derive(Clone, Copy)]
pub struct Source {
    pub left: usize,
    pub at: usize,
    pub end: usize,
    pub begun: bool,
    pub unread: bool,
    pub unwritten: bool,
}

impl Source {
    // The input before its first byte.
    pub fn start() -> Source
        ensures { result ≡ started }
    {
        Source {
            left: INPUT_ROOM,
            at: 0,
            end: 0,
            begun: false,
            unread: false,
            unwritten: false,
        }
    }

    // The input after its end: nothing comes any more. Whether a line is left begun is still told.
    fn stopped(self) -> Source
        ensures { result ≡ stopped_at self }
    {
        Source {
            left: 0,
            at: 0,
            end: 0,
            ..self
        }
    }

    // "A last line without one still counts if it has a byte": it gets its line feed here, where the buffer has a place for it.
    fn end_last(self, input: &mut [u8]) -> Source
        ensures { Last self input.new result }
    {
        if self.begun && !input.is_empty() {
            input[0] = LINE_FEED;
            return Source {
                end: 1,
                begun: false,
                ..self.stopped()
            };
        }
        self.stopped()
    }

    // Reads once. 0 bytes are the end of the input; where reading failed, a line that is begun stays without an answer.
    fn read_chunk<R: io::Read>(self, input: &mut [u8], from: &mut R) -> Source
        ensures { Read self input.new result }
    {
        if self.left == 0 {
            return self.stopped();
        }
        let room = input.len().min(self.left - 1);
        match from.read(&mut input[..room]) {
            Err(_) => Source {
                unread: true,
                ..self.stopped()
            },
            // a reader that counts more than it was lent is not believed
            Ok(got) => match got.min(room) {
                0 => self.end_last(input),
                n => Source {
                    left: self.left - n,
                    at: 0,
                    end: n,
                    begun: input[n - 1] != LINE_FEED,
                    ..self
                },
            },
        }
    }

    // What is left of the chunk, or the next chunk where nothing is left; nothing at the end of the input, and where reading or writing
    // failed.
    pub fn more<R: io::Read>(self, input: &mut [u8], from: &mut R) -> Source
        ensures { Handed self input.old input.new result }
    {
        if self.at < self.end && self.end <= input.len() {
            return self;
        }
        self.read_chunk(input, from)
    }
}
