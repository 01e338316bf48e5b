// "A reader over one lent line hands out one field after another": a small struct with the line and a position.
ghost use Rattle.std.specs.Prelude.{◌≡◌};
ghost use Rattle.fields.specs.Reading.{started, taken};

use crate::number::field;

// The line, the byte where the next field begins, and the field that was taken last: 0, and not an Option, where none was, as `started` and `taken`
// have it, by which a caller knows a reader whole.
#[derive(Clone, Copy)]
pub struct Reader<'a> {
    line: &'a [u8],
    at: usize,
    pub value: u64,
}

impl<'a> Reader<'a> {
    // A reader whose next field begins at byte `at`; it has taken none, and its value is 0.
    pub fn start(line: &'a [u8], at: usize) -> Reader<'a>
        ensures { result ≡ started line.entry at }
    {
        Reader { line, at, value: 0 }
    }

    // The reader past the next field, of `width` bytes, with its value. Where the line does not hold the field, the reader stays, with 0.
    #[tactic(auto, using(crate::proofs::FieldLaws::field_read, crate::proofs::FieldLaws::field_missing))]
    pub fn take(self, width: usize) -> Reader<'a>
        ensures { result ≡ taken self.entry width }
    {
        let Reader { line, at, .. } = self;
        match field(line, at, width) {
            Some(value) => Reader {
                line,
                at: at + width,
                value,
            },
            None => Reader { line, at, value: 0 },
        }
    }
}
