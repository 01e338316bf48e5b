// The task's own stretches of the frame: gathered once a walk, and the units that they give before an instant of it.
ghost use Rattle.std.specs.Prelude.{◌≡◌, ◌-◌, ◌^◌, ◌<◌, ◌≤◌, min, length, take};
ghost use Rattle.walker.specs.Served.{served_to};
ghost use Rattle.walker.specs.Gathered.{FrameOf, Gathered};

use table::Stretch;

// A stretch of the frame, from start on for len units.
#[derive(Clone, Copy)]
pub(crate) struct Span {
    pub start: u32,
    pub len: u32,
}

impl Span {
    // Its units before the instant r of the frame.
    pub(crate) fn part(self, r: u32) -> u64
        ensures { (result ≡ min self.len (r - self.start)) × (result < 2 ^ 32) }
    {
        u64::from(self.len.min(r.saturating_sub(self.start)))
    }
}

// The task's units before the instant r of the frame.
pub(crate) fn served(spans: &[Span], r: u32) -> u64
    requires { length spans.now ≤ 95 }
    ensures { result ≡ served_to spans.now (length spans.now) r }
{
    spans.iter().map(|span| span.part(r)).sum()
}

// The walked task's pieces by start, once a walk, at the front of the lent room, and how many: there is no heap for a list of its own. The move
// count goes from piece to piece in the same way; an iterator for both would be longer than the two loops.
pub(crate) fn gather(frame: u32, table: &[u32], task: u32, spans: &mut [Span]) -> usize
    requires { FrameOf frame table.now × (length spans.old ≡ 95) }
    ensures { (result ≤ 95) × Gathered frame table.now task (take result spans.new) }
{
    let mut count: usize = 0;
    let mut from: u32 = 0;
    while let Some(k) = moves::next_piece(table, task, from) {
        let piece = Stretch::get(table, k).unwrap();
        spans[count] = Span {
            start: piece.start,
            len: piece.len,
        };
        count += 1;
        from = piece.start + piece.len;
    }
    count
}
