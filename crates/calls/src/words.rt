// The line of a call, and what it lends by the byte where it begins: words of 4 bytes, counts of 2 and releases of 8.
ghost use Rattle.std.specs.Prelude.{◌≡◌, ◌+◌, ◌*◌, ◌≤◌, ◌<◌, length};

use fields::field_at;

// A line as the program keeps it: of a longer one the first 99,003 bytes.
#[derive(Clone, Copy)]
pub(crate) struct CallLine<'a> {
    pub bytes: &'a [u8],
    ghost short: { length bytes.now ≤ 99003 },
}

// Three readers over `field_at`: two have a cast, each proved by itself.
impl<'a> CallLine<'a> {
    // A field of 4 bytes, so the cast is proved to lose nothing.
    #[tactic(auto, using(crate::proofs::Fields::word_below))]
    pub(crate) fn word_at(self, at: usize) -> u32 {
        field_at(self.bytes, at, 4) as u32
    }

    // A field of 8 bytes.
    pub(crate) fn release_at(self, at: usize) -> u64 {
        field_at(self.bytes, at, 8)
    }

    // A field of 2 bytes, cast likewise: how many a list has.
    #[tactic(auto, using(crate::proofs::Fields::count_below))]
    pub(crate) fn count_at(self, at: usize) -> usize
        ensures { result < 65536 }
    {
        field_at(self.bytes, at, 2) as usize
    }
}

// Fills the list with fields of `width` bytes from byte `at` on, each read by `read`. Hands back the byte past them.
pub(crate) fn read_list<T: Copy, F: Fn(usize) -> T>(
    at: usize,
    width: usize,
    read: F,
    list: &mut [T],
) -> usize
    requires callable { F.IsAlwaysCallable read }
    requires room { at + width * length list.old ≤ 99002 }
    ensures { result ≡ at + width * length list.old }
{
    let mut past = at;
    for x in list.iter_mut() {
        *x = read(past);
        past += width;
    }
    past
}
