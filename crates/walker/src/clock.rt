// The walk's clock, and the steps job by job.
ghost use Rattle.std.specs.Prelude.{max};
ghost use Rattle.walker.specs.Jobs.{Finished, AllReady};
ghost use Rattle.walker.specs.Step.{StepReady, Stepped};

use crate::joblist::Jobs;
use crate::service::Service;

// The walk's clock: how far the jobs so far have come.
#[derive(Clone, Copy)]
pub(crate) struct Clock {
    pub at: u64,
}

impl Clock {
    // One job: it begins at the later of its release and the clock, and the next clock stands at its finish.
    pub(crate) fn step(self, service: &Service, release: u64, units: u32) -> Clock
        requires { StepReady service.now.frame service.now.total (max release self.at) units }
        ensures { Stepped service.now.frame service.now.spans.now (max release self.at) units result.at }
    {
        let begin = release.max(self.at);
        if units == 0 {
            return Clock { at: begin };
        }
        Clock {
            at: service.reach(service.units_before(begin) + u64::from(units)),
        }
    }
}

// The walk "steps job by job; its clock is handed back after each step".
// C lends the jobs as two lists and the finishes as a third, longer perhaps: a job's number leads to its place in each.
pub(crate) fn finish_all(service: &Service, jobs: &Jobs, finishes: &mut [u64])
    requires { AllReady jobs.now.releases.now jobs.now.units.now finishes.old service.now.total }
    ensures { Finished service.now.frame service.now.spans.now jobs.now.releases.now jobs.now.units.now finishes.old finishes.new }
{
    let mut clock = Clock { at: 0 };
    for k in 0..jobs.releases.len() {
        clock = clock.step(service, jobs.releases[k], jobs.units[k]);
        finishes[k] = clock.at;
    }
}
