// The tests 1, 2, 3, 4, 13, 5, 6 of documents 01 and 02, in this order, each over all tasks before the next. Frame and cores come as C lends
// them, and budgets and masks as its two lists.
#![tactic(auto)]

ghost use Rattle.std.specs.Prelude.{◌≡◌, ◌≤◌, Ok, Err, MatchResult};
ghost use Rattle.rules.specs.Piece.{whole_pieces};
ghost use Rattle.rules.specs.Tests.{mask_tested, short_table, passed, refused, tested_set, then_room, tested};
ghost use Rattle.tests.specs.Verdict.{verdict_of, FirstRefusal, tested_rack, tested_empty, tested_missing, tested_budgets};

use rules::{Answer, MaskFault};

// One test over all tasks, each with its number: the first refusal.
fn test_each<T: Copy, F: Fn(usize, T) -> Result<(), Answer>>(
    values: &[T],
    test: F,
) -> Result<(), Answer>
    requires { F.IsAlwaysCallable test }
    ensures { FirstRefusal (λ i x r. F.post test i x r) values.now result }
{
    for (task, value) in values.iter().enumerate() {
        test(task, *value)?;
    }
    Ok(())
}

// A rack that passed the tests 1 and 2: how long its frame is, and how many cores it has.
#[derive(Clone, Copy)]
struct Rack {
    frame: u32,
    cores: u32,
    ghost few: { cores ≤ 16 },
    ghost good: { passed ≡ tested_rack frame cores },
}

impl Rack {
    #[tactic(auto, unfolding(crate::specs::Verdict::tested_rack, rules::specs::Tests::bad_frame, rules::specs::Tests::bad_cores))]
    fn new(frame: u32, cores: u32) -> Result<Rack, Answer>
        ensures { MatchResult result (λ rack. (rack.frame ≡ frame) × (rack.cores ≡ cores)) (λ a. refused a ≡ tested_rack frame cores) }
    {
        if frame == 0 || 1_000_000 < frame {
            return Err(Answer::FrameLength);
        }
        if cores == 0 || 16 < cores {
            return Err(Answer::CoreCount);
        }
        Ok(Rack { frame, cores })
    }

    // Looks at one mask: "Keep 4 for the empty mask. A mask that names a missing core gets a number of its own, and carries .. the lowest such core."
    #[tactic(auto, using(crate::proofs::MaskLaws::lowest_by_zeros), unfolding(rules::specs::Tests::mask_tested, rules::specs::Tests::empty_mask, rules::specs::Tests::past_cores))]
    fn test_mask(self, mask: u16) -> Result<(), MaskFault>
        ensures { result ≡ mask_tested self.cores mask }
    {
        if mask == 0 {
            return Err(MaskFault::Empty);
        }
        let past = u32::from(mask) >> self.cores;
        if past == 0 {
            return Ok(());
        }
        Err(MaskFault::Missing(self.cores + past.trailing_zeros()))
    }

    // The test 4 over all tasks: the lowest with an empty mask.
    fn test_empty(self, masks: &[u16]) -> Result<(), Answer>
        ensures { verdict_of result ≡ tested_empty masks.now }
    {
        test_each(masks, |task, mask| match self.test_mask(mask) {
            Err(MaskFault::Empty) => Err(Answer::EmptyMask(task)),
            _ => Ok(()),
        })
    }

    // The test 13 over all tasks: the lowest whose mask names a missing core, with the lowest such core.
    fn test_missing(self, masks: &[u16]) -> Result<(), Answer>
        ensures { verdict_of result ≡ tested_missing self.cores masks.now }
    {
        test_each(masks, |task, mask| match self.test_mask(mask) {
            Err(MaskFault::Missing(core)) => Err(Answer::MissingCore { task, core }),
            _ => Ok(()),
        })
    }

    // The test 5 over all tasks: the lowest with a budget above the frame.
    fn test_budgets(self, budgets: &[u32]) -> Result<(), Answer>
        ensures { verdict_of result ≡ tested_budgets self.frame budgets.now }
    {
        test_each(budgets, |task, budget| {
            if self.frame < budget {
                return Err(Answer::Budget(task));
            }
            Ok(())
        })
    }

    // The tests 3, 4, 13 and 5, which look at the tasks as well.
    #[tactic(auto, unfolding(crate::specs::Verdict::tested_rack, crate::specs::Verdict::tested_empty, crate::specs::Verdict::tested_missing, crate::specs::Verdict::tested_budgets, rules::specs::Tests::tested_set, rules::specs::Tests::bad_tasks))]
    fn test_tasks(self, budgets: &[u32], masks: &[u16]) -> Result<(), Answer>
        ensures { verdict_of result ≡ tested_set self.frame self.cores budgets.now masks.now }
    {
        if 64 < budgets.len() || budgets.len() != masks.len() {
            return Err(Answer::TaskCount);
        }
        self.test_empty(masks)?;
        self.test_missing(masks)?;
        self.test_budgets(budgets)
    }

    // The test 6: n + 2 × m − 1 pieces must find room.
    #[tactic(auto, unfolding(rules::specs::Tests::short_table))]
    fn test_room(self, tasks: usize, table: &[u32]) -> Result<(), Answer>
        requires { tasks ≤ 64 }
        ensures { verdict_of result ≡ then_room (short_table tasks self.cores (whole_pieces table.now)) passed }
    {
        // There is no From of a u32 for a usize.
        if table.len() / 4 + 1 < tasks + 2 * (self.cores as usize) {
            return Err(Answer::ShortTable);
        }
        Ok(())
    }
}

// The tests 1 and 2, which look at the frame and the cores alone.
pub fn test_rack(frame: u32, cores: u32) -> Result<(), Answer>
    ensures { verdict_of result ≡ tested_rack frame cores }
{
    Rack::new(frame, cores)?;
    Ok(())
}

// The tests 1, 2, 3, 4, 13 and 5, which look at the set alone.
#[tactic(auto, unfolding(crate::specs::Verdict::tested_rack, rules::specs::Tests::tested_set))]
pub fn test_set(frame: u32, cores: u32, budgets: &[u32], masks: &[u16]) -> Result<(), Answer>
    ensures { verdict_of result ≡ tested_set frame cores budgets.now masks.now }
{
    Rack::new(frame, cores)?.test_tasks(budgets, masks)
}

// All tests: 6 after those.
#[tactic(auto, unfolding(crate::specs::Verdict::tested_rack, rules::specs::Tests::tested_set, rules::specs::Tests::tested))]
pub fn test_plan(
    frame: u32,
    cores: u32,
    budgets: &[u32],
    masks: &[u16],
    table: &[u32],
) -> Result<(), Answer>
    ensures { verdict_of result ≡ tested frame cores budgets.now masks.now table.now }
{
    test_set(frame, cores, budgets, masks)?;
    Rack::new(frame, cores)?.test_room(budgets.len(), table)
}
