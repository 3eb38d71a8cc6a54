//! How a pool is made, and what the driver does.
ghost use Rattle.std.specs.Prelude.{◌≡◌, true, false, ◌≤◌, ◌<◌, [], ◌∷◌, ◌++◌, All, length, MatchOption, MatchResult, IfOk, OnOk};
ghost use Rattle.crossbeam_queue.specs.Fifo.{Held};
ghost use Rattle.jk_queues.specs.Line.{StandsPushed, StandsTaken};
ghost use Rattle.jk_queues.specs.Pool.{offered_by, collected_by, jobs_view, results_view, has_stopped, IsNewEnd, IsSamePool};

use super::{Jobs, Pool, ROOM, Results, WorkerEnd};
use crate::line::{Gets, Other, Puts};
use crate::stop::{Looker, Stop, Stops};
use jk_log::Job;
use std::alloc::{AllocError, Global};
use std::sync::{Arc, Wait};

impl<T: Drop> Pool<T> {
    /// The driver's end, and one end for each worker, all of one pool.
    ///
    /// # Errors
    /// Where memory is refused.
    pub fn new(alloc: Global, workers: usize) -> Result<(Pool<T>, Vec<WorkerEnd<T>>), AllocError>
        requires { (1 ≤ workers) × (workers ≤ 4) }
        ensures count { IfOk result (λ p. length p.1.items ≡ workers) }
        ensures ends { IfOk result (λ p. All (IsNewEnd p.0) p.1.items) }
        ensures empty { IfOk result (λ p. (offered_by p.0 ≡ []) × (collected_by p.0 ≡ []) × (has_stopped p.0 ≡ false)) }
    {
        let (jobs, offered) = Jobs::ruled(alloc, ROOM)?;
        let (results, collected) = Results::<T>::ruled(alloc, ROOM)?;
        let (stop, stopping) = Stop::ruled(alloc, [0])?;
        let mut pool = Pool {
            jobs: Arc::new(alloc, jobs)?,
            results: Arc::new(alloc, results)?,
            offered,
            collected,
            stop: Arc::new(alloc, stop)?,
            stopping,
        };
        let mut ends = Vec::with_capacity(alloc, workers)?;
        for _ in 0..workers {
            ends.push(pool.worker_end()?)?;
        }
        Ok((pool, ends))
    }

    fn worker_end(&mut self) -> Result<WorkerEnd<T>, AllocError>
        ensures views { (jobs_view self.new ≡ jobs_view self.old) × (results_view self.new ≡ results_view self.old) }
        ensures stop { has_stopped self.new ≡ has_stopped self.old }
        ensures same { IsSamePool self.old self.new }
        ensures end { IfOk result (IsNewEnd self.old) }
    {
        let jobs = Arc::try_clone(&self.jobs)?;
        let results = Arc::try_clone(&self.results)?;
        let stop = Arc::try_clone(&self.stop)?;
        let taken = jobs.another::<Other>(&mut self.offered);
        let made = results.another::<Other>(&mut self.collected);
        let stopping = stop.split_pass::<Looker>(&mut self.stopping);
        Ok(WorkerEnd {
            jobs,
            results,
            taken,
            made,
            stop,
            stopping,
        })
    }

    /// Offers a job to the workers.
    ///
    /// # Errors
    /// The job comes back where 64 jobs stood in the queue at one moment of the call.
    pub fn offer<R: Wait>(&mut self, rt: &R, job: Job) -> Result<(), Job>
        ensures offered { MatchResult result (λ _. offered_by self.new ≡ offered_by self.old ++ job ∷ []) (λ back. (back ≡ job) × (offered_by self.new ≡ offered_by self.old) × Held 64 (StandsPushed (jobs_view self.new))) }
        ensures results { results_view self.new ≡ results_view self.old }
        ensures same { IsSamePool self.old self.new }
    {
        self.jobs.push_as::<Puts, R>(rt, &mut self.offered, job)
    }

    /// The next result, or `None` where no result stood in the queue at one moment of the call.
    pub fn collect<R: Wait>(&mut self, rt: &R) -> Option<T>
        ensures collected { MatchOption result ((collected_by self.new ≡ collected_by self.old) × Held 0 (StandsTaken (results_view self.new))) (λ x. collected_by self.new ≡ collected_by self.old ++ x ∷ []) }
        ensures jobs { jobs_view self.new ≡ jobs_view self.old }
        ensures same { IsSamePool self.old self.new }
    {
        self.results.pop_as::<Gets, R>(rt, &mut self.collected)
    }

    /// Tells the workers to return.
    pub fn stop<R: Wait>(&mut self, rt: &R)
        ensures stopped { has_stopped self.new ≡ true }
        ensures views { (jobs_view self.new ≡ jobs_view self.old) × (results_view self.new ≡ results_view self.old) }
        ensures same { IsSamePool self.old self.new }
    {
        self.stop.swap_as::<Stops, R>(rt, &mut self.stopping, [1]);
    }
}
