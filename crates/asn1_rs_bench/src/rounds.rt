//! Runs of a workload, each timed.

use crate::failure::Failure;
use std::time::{CpuClock, Duration};

/// What the runs of a workload came to.
#[derive(Debug, Clone, Copy)]
pub(crate) struct Outcome {
    /// What each run answered.
    pub check: u64,
    /// The least time of a run: the longest there is where none was timed.
    pub least: Duration,
}

/// How often a workload is run, and by which clock.
#[derive(Drop)]
pub(crate) struct Rounds<'r, C> {
    clock: &'r C,
    count: usize,
}

impl<'r, C: CpuClock> Rounds<'r, C> {
    /// One run that is not timed, and then so many that are.
    pub(crate) fn new(clock: &'r C, count: usize) -> Self {
        Rounds { clock, count }
    }

    /// Runs the closure, and times the rounds. Each run is to answer what the first one did.
    pub(crate) fn time<F>(&self, mut once: F) -> Result<Outcome, Failure>
    where
        F: FnMut() -> Result<u64, Failure> + Drop,
        requires { F.IsAlwaysCallable once }
    {
        let check = once()?;
        let mut least = Duration::MAX;
        for _ in 0..self.count {
            let start = self.now()?;
            let answer = once()?;
            let spent = self.now()?.saturating_sub(start);
            if answer != check {
                return Err(Failure::Unsteady);
            }
            least = least.min(spent);
        }
        Ok(Outcome { check, least })
    }

    /// The processor time of this thread.
    fn now(&self) -> Result<Duration, Failure> {
        self.clock.thread_cpu_time().map_err(|_| Failure::Clock)
    }
}
