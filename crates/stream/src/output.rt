// Answer lines to a writer, and one line on another, standard error, where reading or writing failed.
ghost use Rattle.stream.specs.Reading.{Passed};

use crate::input::Source;
use std::io;

impl Source {
    // So many bytes of the chunk are taken, and these are their answers: they are written, in one write where the system takes them at once.
    // Where that fails, nothing comes any more.
    pub fn pass_on<W: io::Write>(self, taken: usize, answers: &[u8], to: &mut W) -> Source
        ensures { Passed self taken result }
    {
        match to.write_all(answers) {
            Ok(()) => Source {
                at: self.at.saturating_add(taken).min(self.end),
                ..self
            },
            Err(_) => Source {
                left: 0,
                at: self.end,
                unwritten: true,
                ..self
            },
        }
    }

    // Where reading or writing failed: one line on standard error, with the program's name.
    pub fn report<W: io::Write>(self, name: &[u8], to: &mut W) {
        if self.unread {
            say(
                name,
                b": standard input could not be read, and the answers end here; give a file or a pipe that can be read\n",
                to,
            );
        }
        if self.unwritten {
            say(
                name,
                b": standard output could not be written, and answers are lost; give it room and run again\n",
                to,
            );
        }
    }
}

// Two runs of bytes after one another on standard error. Where that fails, there is nobody left to tell.
fn say<W: io::Write>(name: &[u8], words: &[u8], to: &mut W) {
    let _ = to.write_all(name);
    let _ = to.write_all(words);
}
