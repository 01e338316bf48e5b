// The table check over any lent table: one flat list, four numbers a piece (core, task, start, length).
// Nothing of a lent table is trusted: each length, each number is tested before it counts.
#![tactic(auto)]

ghost use Rattle.std.specs.Prelude.{◌≡◌, ◌+◌, ◌&&◌, ◌<◌};
ghost use Rattle.rules.specs.Piece.{piece_at, whole_pieces};
ghost use Rattle.rules.specs.FrameTable.{sound, ordered, overlap, core_apart, task_apart, frame_table};
ghost use Rattle.rules.specs.Check.{check_answer};
ghost use Rattle.tests.specs.Verdict.{verdict_of};
ghost use Rattle.table.specs.Tested.{tested_table};
ghost use Rattle.table.specs.Read.{piece_of, stretch_at, stretch_get, together, follows, passes};

use rules::Answer;

// One piece of a table: on this core this task runs from start on for len units.
#[derive(Clone, Copy)]
pub struct Stretch {
    pub core: u32,
    pub task: u32,
    pub start: u32,
    pub len: u32,
}

impl Stretch {
    // The k-th piece of a lent list, where it has so many.
    pub fn get(table: &[u32], k: usize) -> Option<Stretch>
        ensures { result ≡ stretch_get table.now k }
    {
        if k < table.len() / 4 {
            Some(Stretch::at(table, k))
        } else {
            None
        }
    }

    pub(crate) fn at(table: &[u32], k: usize) -> Stretch
        requires { k < whole_pieces table.now }
        ensures { result ≡ stretch_at table.now k }
    {
        Stretch {
            core: table[4 * k],
            task: table[4 * k + 1],
            start: table[4 * k + 2],
            len: table[4 * k + 3],
        }
    }

    // Where it ends, in 64 bits.
    pub(crate) fn end(self) -> u64
        ensures { result ≡ self.start + self.len }
    {
        u64::from(self.start) + u64::from(self.len)
    }

    // "each core below m, each task below 64, length at least 1, start + length at most F"
    #[tactic(auto, unfolding(rules::specs::FrameTable::sound))]
    pub(crate) fn is_sound(self, frame: u32, cores: u32) -> bool
        ensures { result ≡ sound frame cores (piece_of self) }
    {
        self.core < cores && self.task < 64 && 1 <= self.len && self.end() <= u64::from(frame)
    }

    // "in order of core and then start"
    #[tactic(auto, unfolding(rules::specs::FrameTable::ordered))]
    pub(crate) fn in_order(self, next: Stretch) -> bool
        ensures { result ≡ ordered (piece_of self) (piece_of next) }
    {
        (self.core, self.start) <= (next.core, next.start)
    }

    // The two have an instant in common.
    #[tactic(auto, unfolding(rules::specs::FrameTable::overlap))]
    pub(crate) fn overlaps(self, other: Stretch) -> bool
        ensures { result ≡ overlap (piece_of self) (piece_of other) }
    {
        u64::from(self.start) < other.end() && u64::from(other.start) < self.end()
    }

    // "no two pieces of one core overlap; no two pieces of one task overlap, on any cores"
    #[tactic(auto, unfolding(rules::specs::FrameTable::core_apart, rules::specs::FrameTable::task_apart))]
    pub(crate) fn is_apart(self, other: Stretch) -> bool
        ensures { result ≡ (core_apart (piece_of self) (piece_of other) && task_apart (piece_of self) (piece_of other)) }
    {
        !((self.core == other.core || self.task == other.task) && self.overlaps(other))
    }

    // This piece and a later one may stand in one table.
    #[tactic(auto, unfolding(crate::specs::Read::together))]
    pub(crate) fn stands_before(self, later: Stretch) -> bool
        ensures { result ≡ together (piece_of self) (piece_of later) }
    {
        self.in_order(later) && self.is_apart(later)
    }
}

// What the table check is lent: the frame, the cores and the flat list.
#[derive(Clone, Copy)]
struct TableCheck<'a> {
    frame: u32,
    cores: u32,
    table: &'a [u32],
}

impl TableCheck<'_> {
    // The k-th piece is sound and may stand after each piece before it.
    fn passes(self, k: usize) -> bool
        requires { k < whole_pieces self.table.now }
        ensures { result ≡ (sound self.entry.frame self.entry.cores (piece_at self.entry.table.now k) && follows self.entry.table.now k) }
    {
        let piece = Stretch::at(self.table, k);
        piece.is_sound(self.frame, self.cores)
            && (0..k).all(|j| Stretch::at(self.table, j).stands_before(piece))
    }

    // Every piece does.
    fn pieces_pass(self) -> bool
        ensures { result ≡ passes self.entry.frame self.entry.cores self.entry.table.now (whole_pieces self.entry.table.now) }
    {
        (0..self.table.len() / 4).all(|k| self.passes(k))
    }

    // "at most 95 pieces" stands before the pass over them, so that its cost stays below 95 × 95 tests.
    #[tactic(auto, using(crate::proofs::All::frame_table_passes))]
    fn is_table(self) -> bool
        ensures { result ≡ frame_table self.entry.frame self.entry.cores self.entry.table.now }
    {
        self.table.len() % 4 == 0 && self.table.len() / 4 <= 95 && self.pieces_pass()
    }
}

// "The table check and the move count test 1, 2, 8", and the walker before its own tests. Frame, cores and table come as C lends them.
// Inlined, so that its callers need no frame for it: include/aurhennig.h names the stack of each call.
#[inline(always)]
#[tactic(auto, unfolding(tests::specs::Verdict::tested_rack, crate::specs::Tested::tested_table))]
pub fn test_table(frame: u32, cores: u32, table: &[u32]) -> Result<(), Answer>
    ensures { verdict_of result ≡ tested_table frame cores table.now }
{
    tests::test_rack(frame, cores)?;
    let check = TableCheck {
        frame,
        cores,
        table,
    };
    if !check.is_table() {
        return Err(Answer::NotTable);
    }
    Ok(())
}

// The same as an answer.
pub fn check_table(frame: u32, cores: u32, table: &[u32]) -> Answer
    ensures { result ≡ check_answer frame cores table.now }
{
    Answer::from(test_table(frame, cores, table))
}
