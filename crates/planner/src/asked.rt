// What is asked of the cores, as the tests leave it.
ghost use Rattle.tests.specs.Given.{Given};

// The frame's length, how many cores there are, and each task's budget and mask.
#[derive(Clone, Copy)]
pub(crate) struct Asked<'a> {
    pub frame: u32,
    pub cores: usize,
    pub budgets: &'a [u32],
    pub masks: &'a [u16],
    ghost given: { Given frame cores budgets.now masks.now },
}
