// Pieces in the lent table, four numbers each: core, task, start, length. A piece is put in by its start.
// `from` and `count` stay two numbers beside the table: the table has pieces of other cores too, and each piece moves the count, so that a
// struct would be no plainer.
ghost use Rattle.std.specs.Prelude.{◌≡◌, [], ◌∷◌, ◌+◌, ◌*◌, ◌≤◌, ◌<◌, ◌++◌, length, take, drop};
ghost use Rattle.rules.specs.Piece.{numbers_of};
ghost use Rattle.rules.specs.Sizes.{max_frame};
ghost use Rattle.layout.specs.Pieces.{most_pieces, Room, Placed, gap, Inserts, piece_of, cut_of};

// A piece, or a stretch that may cross the end of the frame. The table check's `Stretch` has the same four numbers; its methods must stand
// in the crate that declares it, and layout would rest on that crate for the fields alone.
#[derive(Clone, Copy)]
pub(crate) struct Part {
    pub core: u32,
    pub task: u32,
    pub start: u32,
    pub len: u32,
}

// The place of a piece: before the first that starts after it.
fn place_of(table: &[u32], from: usize, count: usize, start: u32) -> usize
    requires { (from ≤ count) × Room count (length table.now) }
    ensures { Placed table.now from count start result }
{
    (from..count)
        .find(|k| start < table[4 * *k + 2])
        .unwrap_or(count)
}

// The numbers from the place `from` up to `to` move on by four places.
fn open_gap(table: &mut [u32], from: usize, to: usize)
    requires { (from ≤ to) × (to + 4 ≤ 4 * most_pieces) × (to + 4 ≤ length table.old) }
    ensures { table.new ≡ gap table.old from to }
{
    table.copy_within(from..to, from + 4);
}

// A piece, number by number in the order of document 01, from the place `i` on.
fn write_piece(table: &mut [u32], i: usize, part: Part)
    requires { (i + 4 ≤ 4 * most_pieces) × (i + 4 ≤ length table.old) }
    ensures { table.new ≡ take i table.old ++ (numbers_of (piece_of part ∷ []) ++ drop (i + 4) table.old) }
{
    let numbers = [part.core, part.task, part.start, part.len];
    table[i..i + 4].copy_from_slice(&numbers);
}

// A piece is put in by its start among the pieces of its core, which are those from `from` up to `count`.
fn insert_piece(table: &mut [u32], from: usize, count: usize, part: Part)
    requires { (from ≤ count) × Room (count + 1) (length table.old) }
    ensures { Inserts from count (piece_of part ∷ []) table.old table.new }
{
    let at = place_of(table, from, count, part.start);
    open_gap(table, 4 * at, 4 * count);
    write_piece(table, 4 * at, part);
}

// "A stretch that crosses the end becomes two pieces": the pieces of a stretch are put in. The number of pieces then.
pub(crate) fn add_stretch(
    table: &mut [u32],
    from: usize,
    count: usize,
    frame: u32,
    part: Part,
) -> usize
    requires { (from ≤ count) ×
        (part.start < frame) ×
        (frame ≤ max_frame) ×
        (part.len ≤ frame) ×
        Room (count + length (cut_of frame part)) (length table.old) }
    ensures { (result ≡ count + length (cut_of frame part)) ×
        Inserts from count (cut_of frame part) table.old table.new }
{
    let end = part.start + part.len;
    if end <= frame {
        insert_piece(table, from, count, part);
        return count + 1;
    }
    let last = Part {
        len: frame - part.start,
        ..part
    };
    let wrapped = Part {
        start: 0,
        len: end - frame,
        ..part
    };
    insert_piece(table, from, count, last);
    insert_piece(table, from, count + 1, wrapped);
    count + 2
}
