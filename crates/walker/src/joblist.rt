// A job list and its tests. C lends it as two lists, a release and units for each job.
ghost use Rattle.std.specs.Prelude.{◌≡◌, ◌<◌, length, IfErr, IfOk};
ghost use Rattle.rules.specs.Jobs.{first_bad_job, first_asking};
ghost use Rattle.rules.specs.Tests.{refused, passed};
ghost use Rattle.walker.specs.Jobs.{place, is_bad, tested_jobs, waiting, JobsGood};

use rules::Answer;

// A job list that passes the test 9: each job's release, and the units that it asks.
#[derive(Clone, Copy)]
pub(crate) struct Jobs<'a> {
    pub releases: &'a [u64],
    pub units: &'a [u32],
    ghost good: { JobsGood releases.now units.now },
}

impl<'a> Jobs<'a> {
    // Answer 9: "releases and units differ in number, or more than 4,096 jobs (both carry job 0); otherwise the first job with" a fault.
    #[tactic(auto, using(crate::proofs::Jobs::jobs_good), unfolding(crate::specs::Jobs::tested_jobs, rules::specs::Jobs::bad_job_count))]
    pub(crate) fn new(releases: &'a [u64], units: &'a [u32]) -> Result<Jobs<'a>, Answer>
        ensures { IfErr result (λ a. refused a ≡ tested_jobs releases.now units.now)
            × IfOk result (λ jobs. (passed ≡ tested_jobs releases.now units.now) × (jobs.releases.now ≡ releases.now) × (jobs.units.now ≡ units.now)) }
    {
        if releases.len() != units.len() || 4096 < releases.len() {
            return Err(Answer::JobList(0));
        }
        match first_bad_job(releases, units) {
            Some(job) => Err(Answer::JobList(job)),
            None => Ok(Jobs { releases, units }),
        }
    }

    // "walked task has no units in the table and a job asks units": the first such job.
    pub(crate) fn waiting(&self, total: u64) -> Option<usize>
        ensures { result ≡ waiting total self.now.units.now }
    {
        if total == 0 {
            first_asking(self.units)
        } else {
            None
        }
    }
}

// "a release below the one before it, a release above the limit or units above the limit"
#[tactic(auto, using(crate::proofs::Jobs::bad_faults))]
fn is_bad_job(releases: &[u64], units: &[u32], k: usize) -> bool
    requires { (k < length releases.now) × (length units.now ≡ length releases.now) }
    ensures { result ≡ is_bad releases.now units.now k }
{
    (k != 0 && releases[k] < releases[k - 1])
        || 1_000_000_000_000 < releases[k]
        || 1_000_000 < units[k]
}

// "the first job with" such a fault. It takes the two lists, since there are no Jobs before it finds none.
fn first_bad_job(releases: &[u64], units: &[u32]) -> Option<usize>
    requires { length units.now ≡ length releases.now }
    ensures { result ≡ place (first_bad_job releases.now units.now) (length releases.now) }
{
    (0..releases.len()).position(|k| is_bad_job(releases, units, k))
}

// "a job asks units": the first such job
fn first_asking(units: &[u32]) -> Option<usize>
    ensures { result ≡ place (first_asking units.now) (length units.now) }
{
    units.iter().position(|asked| *asked != 0)
}
