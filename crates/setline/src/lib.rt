// A set's line read: "In: F (4 bytes), m (1), n (1), then per task budget (4) and mask (2)".
#![tactic(auto)]

ghost use Rattle.std.specs.Prelude.{◌≡◌, leb, ◌&&◌, ◌+◌, ◌*◌, ◌≤◌, ◌<◌, length};
ghost use Rattle.rules.specs.Sizes.{max_digits};
ghost use Rattle.rules.specs.Line.{all_digits};
ghost use Rattle.setline.specs.Decoded.{Headed, TaskAt, Tasked, has_header, header_of};
ghost use Rattle.setline.specs.ReadSet.{ReadSet};

use fields::{Reader, all_digits};

// "So is any of more than 3,072 digits."
const MAX_DIGITS: usize = 3072;

// The digits of the fields before the tasks: "fewer than 12 digits" hold no task count.
const HEADER_DIGITS: usize = 12;

// The numbers of a set before its tasks.
#[derive(Clone, Copy)]
pub struct Header {
    pub frame: u32,
    pub cores: u32,
    pub tasks: usize,
}

// The frame, the cores and the task count, one field after another. The casts are proved to lose nothing; a TryFrom would have an error to
// handle that can't be.
fn read_header(line: &[u8]) -> Header
    requires { 12 ≤ length line.now }
    ensures { Headed line.now result }
{
    let frame = Reader::start(line, 0).take(4);
    let cores = frame.take(1);
    let tasks = cores.take(1);
    Header {
        frame: frame.value as u32,
        cores: cores.value as u32,
        tasks: tasks.value as usize,
    }
}

// The fields of a task.
#[derive(Drop)]
struct Task {
    budget: u32,
    mask: u16,
}

// The task whose fields begin at byte `at`, cast as those of the header.
fn read_task(line: &[u8], at: usize) -> Task
    requires { 2 * (at + 6) ≤ length line.now }
    ensures { TaskAt line.now at result }
{
    let budget = Reader::start(line, at).take(4);
    let mask = budget.take(2);
    Task {
        budget: budget.value as u32,
        mask: mask.value as u16,
    }
}

// Whether a line has digits alone, and not too many. The length is tested first, so that a long line costs no more than a short one.
fn is_digits(line: &[u8]) -> bool
    ensures { result ≡ (leb (length line.now) max_digits && all_digits line.now) }
{
    line.len() <= MAX_DIGITS && all_digits(line)
}

// Whether a line has the fields before the tasks.
#[tactic(auto, unfolding(crate::specs::Decoded::has_header))]
fn has_header(line: &[u8]) -> bool
    ensures { result ≡ has_header line.now }
{
    is_digits(line) && line.len() % 2 == 0 && HEADER_DIGITS <= line.len()
}

// The numbers before the tasks of a line that is well written: "A line is not well written if ..".
fn tested_header(line: &[u8]) -> Option<Header>
    ensures { result ≡ header_of line.now }
{
    if !has_header(line) {
        return None;
    }
    let header = read_header(line);
    (line.len() == 2 * (6 + 6 * header.tasks)).then_some(header)
}

// The budgets and masks of the `n` tasks, at the front of two lists: the C interface of the planner has two, and not one of tasks. A range, since
// one number walks the line and both lists.
fn read_tasks(line: &[u8], n: usize, budgets: &mut [u32], masks: &mut [u16])
    requires { (n < 256) × (2 * (6 + 6 * n) ≤ length line.now) × (n ≤ length budgets.old) × (n ≤ length masks.old) }
    ensures { Tasked line.now n budgets.old budgets.new masks.old masks.new }
{
    for i in 0..n {
        let task = read_task(line, 6 + 6 * i);
        budgets[i] = task.budget;
        masks[i] = task.mask;
    }
}

// The numbers before the tasks, whose budgets and masks then stand at the front of the two lists. A line that is not well written is refused,
// and so is one whose tasks find no room: the two lists keep what they held.
pub fn read_set(line: &[u8], budgets: &mut [u32], masks: &mut [u16]) -> Option<Header>
    ensures { ReadSet line.now budgets.old masks.old result budgets.new masks.new }
{
    let header = tested_header(line)?;
    if budgets.len() < header.tasks || masks.len() < header.tasks {
        return None;
    }
    read_tasks(line, header.tasks, budgets, masks);
    Some(header)
}
