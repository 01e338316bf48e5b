// What a line lends to its call, and the call's answer line.
ghost use Rattle.std.specs.Prelude.{◌+◌, ◌*◌, ◌≤◌, length, OnSome};

use crate::answers::{put_answer, put_bad_line};
use crate::words::{CallLine, read_list};
use fields::{all_digits, field_at};
use rules::Answer;

// The line of a call has a byte and whole words, of 8 digits each.
const WORD: usize = 8;

// The most words that a line may have.
const MOST_WORDS: usize = 12375;

// The fewest digits that it may have: a byte and two words.
const SHORTEST: usize = 18;

// The most: "more than 99,002 digits" are refused.
const LONGEST: usize = 99002;

// The words before those of a table check or a move count, and before a walk's lists.
const TABLE_HEAD: usize = 2;

const WALK_HEAD: usize = 5;

// The most that a field of 2 bytes can count.
const MOST_FINISHES: usize = 65535;

// The calls that a line may ask for.
#[derive(Clone, Copy)]
enum Call {
    Check,
    Count,
    Walk,
}

// How many words, releases and units a walk's line has. A release takes two words of the line.
#[derive(Clone, Copy)]
struct Counts {
    words: usize,
    releases: usize,
    units: usize,
    ghost fit: { words + 2 * releases + units ≤ 12370 },
}

// "task (4), word count (2), release count (2), unit count (2), finish room (2)" follow F and m: the counts, where they say the line's length.
fn counts_of(line: CallLine) -> Option<Counts> {
    let words = line.count_at(13);
    let releases = line.count_at(15);
    let units = line.count_at(17);
    if WALK_HEAD + words + 2 * releases + units != line.bytes.len() / WORD {
        return None;
    }
    Some(Counts {
        words,
        releases,
        units,
    })
}

// What a table check or a move count finds: "call (1), F (4 bytes), m (4), then the table's words".
fn ask_table<F: Fn(u32, u32, &[u32]) -> (Answer, Option<u64>)>(
    line: CallLine,
    ask: F,
    words: &mut [u32],
) -> (Answer, Option<u64>)
    requires callable { F.IsAlwaysCallable ask }
    requires room { length words.old ≤ 12373 }
{
    read_list(9, 4, |at: usize| line.word_at(at), words);
    ask(line.word_at(1), line.word_at(5), words)
}

// The answer line of either: `ask` is the call, with the number that it shows. A line is read and an output written, so they stay two.
fn put_table<F: Fn(u32, u32, &[u32]) -> (Answer, Option<u64>)>(
    line: CallLine,
    ask: F,
    out: &mut [u8],
) -> usize
    requires callable { F.IsAlwaysCallable ask }
    requires long { 18 ≤ length line.bytes.now }
    ensures { result ≤ 99002 }
{
    let count = line.bytes.len() / WORD - TABLE_HEAD;
    let mut words = [0u32; MOST_WORDS - TABLE_HEAD];
    let (answer, shown) = ask_table(line, ask, &mut words[..count]);
    put_answer(out, answer, shown.as_slice(), 4)
}

// The walk over its lists, which stand one after another in the line.
fn walk_lists(
    line: CallLine,
    words: &mut [u32],
    releases: &mut [u64],
    units: &mut [u32],
    finishes: &mut [u64],
) -> Answer
    requires { length words.old + 2 * length releases.old + length units.old ≤ 12370 }
{
    let second = read_list(21, 4, |at: usize| line.word_at(at), words);
    let third = read_list(second, 8, |at: usize| line.release_at(at), releases);
    read_list(third, 4, |at: usize| line.word_at(at), units);
    walker::walk(
        line.word_at(1),
        line.word_at(5),
        words,
        line.word_at(9),
        releases,
        units,
        finishes,
    )
}

// The walk with room for what its counts say.
fn walk_room(line: CallLine, counts: Counts, finishes: &mut [u64]) -> Answer
    requires { 65535 ≤ length finishes.old }
{
    let room = line.count_at(19);
    let mut words = [0u32; MOST_WORDS - WALK_HEAD];
    let mut releases = [0u64; (MOST_WORDS - WALK_HEAD) / 2];
    let mut units = [0u32; MOST_WORDS - WALK_HEAD];
    walk_lists(
        line,
        &mut words[..counts.words],
        &mut releases[..counts.releases],
        &mut units[..counts.units],
        &mut finishes[..room],
    )
}

// The answer line of a walk: a finish for each release.
fn put_walk(line: CallLine, counts: Counts, finishes: &mut [u64], out: &mut [u8]) -> usize
    requires { 65535 ≤ length finishes.old }
    ensures { result ≤ 99002 }
{
    let answer = walk_room(line, counts, finishes);
    put_answer(out, answer, &finishes[..counts.releases], 8)
}

// The answer line of a walk, whose counts may be wrong.
fn walk(line: CallLine, out: &mut [u8]) -> usize
    ensures { result ≤ 99002 }
{
    let Some(counts) = counts_of(line) else {
        return put_bad_line(out);
    };
    let mut finishes = [0u64; MOST_FINISHES];
    put_walk(line, counts, &mut finishes, out)
}

// Which call a line asks for.
fn call_of(line: CallLine) -> Option<Call>
    ensures { OnSome result (18 ≤ length line.entry.bytes.now) }
{
    if line.bytes.len() < SHORTEST
        || LONGEST < line.bytes.len()
        || line.bytes.len() % WORD != 2
        || !all_digits(line.bytes)
    {
        return None;
    }
    match field_at(line.bytes, 0, 1) {
        1 => Some(Call::Check),
        2 => Some(Call::Count),
        3 => Some(Call::Walk),
        _ => None,
    }
}

// The answer of one line, without its line feed. The table check shows no number, and the move count shows the moves.
pub(crate) fn answer_line(line: CallLine, out: &mut [u8]) -> usize
    ensures { result ≤ 99002 }
{
    match call_of(line) {
        Some(Call::Check) => put_table(
            line,
            |frame: u32, cores: u32, words: &[u32]| (table::check_table(frame, cores, words), None),
            out,
        ),
        Some(Call::Count) => put_table(
            line,
            |frame: u32, cores: u32, words: &[u32]| {
                let found = moves::count_moves(frame, cores, words);
                // there is no From of a usize for a u64
                (found.answer, Some(found.moves as u64))
            },
            out,
        ),
        Some(Call::Walk) => walk(line, out),
        None => put_bad_line(out),
    }
}
