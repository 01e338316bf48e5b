// The move count over any lent table, and the search for a task's next piece: one flat list, four numbers a piece (core, task, start, length).
// The moves of a list are counted only once the table check has accepted it.
#![tactic(auto)]

ghost use Rattle.std.specs.Prelude.{◌≡◌, ◌<◌, ◌≤◌, IfSome};
ghost use Rattle.rules.specs.Piece.{pieces_of, whole_pieces};
ghost use Rattle.rules.specs.Moves.{by_start, changes, moves};
ghost use Rattle.rules.specs.Check.{moves_answer};
ghost use Rattle.table.specs.Read.{stretch_at};
ghost use Rattle.moves.specs.Next.{sooner, next_piece};
ghost use Rattle.moves.specs.Framed.{Framed};
ghost use Rattle.moves.specs.Moved.{moved};

use rules::{Answer, Counted};
use table::Stretch;

pub(crate) fn piece_at(table: &[u32], k: usize) -> Stretch
    requires { k < whole_pieces table.now }
    ensures { result ≡ stretch_at table.now k }
{
    Stretch::get(table, k).unwrap()
}

// Piece k comes into question: the task's, at `from` or later, and sooner than the best so far. Table and task come as `next_piece` is asked.
#[tactic(auto, unfolding(crate::specs::Next::sooner))]
pub(crate) fn is_sooner(table: &[u32], task: u32, from: u32, best: Option<usize>, k: usize) -> bool
    requires piece { k < whole_pieces table.now }
    requires best { IfSome best (λ b. b < whole_pieces table.now) }
    ensures { result ≡ sooner table.now task from best k }
{
    let piece = piece_at(table, k);
    piece.task == task
        && from <= piece.start
        && best.is_none_or(|b| piece.start < piece_at(table, b).start)
}

// Of the task's pieces that start at `from` or later, the number of the one that starts first.
pub fn next_piece(table: &[u32], task: u32, from: u32) -> Option<usize>
    ensures { result ≡ next_piece table.now task from }
{
    let mut best = None;
    for k in 0..table.len() / 4 {
        if is_sooner(table, task, from, best, k) {
            best = Some(k);
        }
    }
    best
}

// "a move is a piece whose core differs from the piece before it"; the first piece has none before it.
pub(crate) fn is_move(before: Option<u32>, core: u32) -> bool
    ensures { result ≡ moved before core }
{
    before.is_some_and(|b| b != core)
}

// "for each task, list its pieces by start within the frame": its moves. The walker gathers pieces in the same way; an iterator for both would
// be longer than the two loops.
pub(crate) fn task_moves(table: &[u32], task: u32) -> usize
    requires { Framed table.now }
    ensures { (result ≡ changes (by_start task (pieces_of table.now))) × (result ≤ 95) }
{
    let mut count: usize = 0;
    let mut core = None;
    let mut from: u32 = 0;
    while let Some(k) = next_piece(table, task, from) {
        let piece = piece_at(table, k);
        count += usize::from(is_move(core, piece.core));
        core = Some(piece.core);
        from = piece.start + piece.len;
    }
    count
}

// "The move count is the sum over tasks."
pub(crate) fn table_moves(table: &[u32]) -> usize
    requires { Framed table.now }
    ensures { result ≡ moves (pieces_of table.now) }
{
    (0..64).map(|task| task_moves(table, task)).sum()
}

// The moves of a frame table, and 0 beside a refusal.
pub fn count_moves(frame: u32, cores: u32, table: &[u32]) -> Counted
    ensures { result ≡ moves_answer frame cores table.now }
{
    match table::check_table(frame, cores, table) {
        Answer::Accepted => Counted {
            answer: Answer::Accepted,
            moves: table_moves(table),
        },
        refusal => Counted {
            answer: refusal,
            moves: 0,
        },
    }
}
