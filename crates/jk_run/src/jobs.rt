//! Giving jobs to the pool, and handing its results to the kernel.
ghost use Rattle.std.specs.Prelude.{◌≡◌, ◌++◌, true, IfSome, Option};
ghost use Rattle.jk_log.specs.declared.job.Job.{Job};
ghost use Rattle.crossbeam_queue.specs.Fifo.{Held};
ghost use Rattle.jk_queues.specs.Line.{StandsPushed, StandsTaken};
ghost use Rattle.jk_queues.specs.declared.line.Hand.{Hand};
ghost use Rattle.jk_queues.specs.Pool.{offered_by, collected_by, jobs_view, results_view, IsSamePool};
ghost use Rattle.jk_run.specs.Acts.{GivesJobs, HandsResults};
ghost use Rattle.jk_run.specs.Driver.{HasGiven};
ghost use Rattle.jk_run.specs.Hand.{hand};

use jk_core::Kernel;
use jk_language::Language;
use jk_log::{Job, ParsedCell};
use jk_queues::Pool;
use std::sync::Wait;

/// Offers the job in hand, and then those that wait, until none does or one finds no room, which is in hand after it. It
/// says whether memory was there for each.
pub(crate) fn give_jobs<L: Language, R: Wait>(
    rt: &R,
    kernel: &mut Kernel<L>,
    pool: &mut Pool<ParsedCell<L>>,
    job: Option<Job>,
) -> (Option<Job>, bool)
    ensures log { kernel.new.log ≡ kernel.old.log }
    ensures given { result.1 ≡ true → HasGiven result.0 (jobs_view pool.new) kernel.new }
    ensures pool { IsSamePool pool.old pool.new × (collected_by pool.new ≡ collected_by pool.old) }
    ensures acts { GivesJobs L.spoken kernel.old (offered_by pool.old ++ hand job) kernel.new (offered_by pool.new ++ hand result.0) }
{
    match offer_hand(rt, pool, job) {
        Some(job) => (Some(job), true),
        None => give_all(rt, kernel, pool),
    }
}

/// Offers each job that waits until none does, or one finds no room or no memory.
fn give_all<L: Language, R: Wait>(
    rt: &R,
    kernel: &mut Kernel<L>,
    pool: &mut Pool<ParsedCell<L>>,
) -> (Option<Job>, bool)
    ensures log { kernel.new.log ≡ kernel.old.log }
    ensures given { result.1 ≡ true → HasGiven result.0 (jobs_view pool.new) kernel.new }
    ensures pool { IsSamePool pool.old pool.new × (collected_by pool.new ≡ collected_by pool.old) }
    ensures acts { GivesJobs L.spoken kernel.old (offered_by pool.old) kernel.new (offered_by pool.new ++ hand result.0) }
{
    for _ in rt.forever() {
        let asked = match kernel.next_job() {
            Ok(asked) => asked,
            Err(_) => return (None, false),
        };
        let Some(job) = asked else {
            return (None, true);
        };
        if let Err(back) = pool.offer(rt, job) {
            return (Some(back), true);
        }
    }
    unreachable!()
}

/// Offers the job in hand, if there is one. What comes back is in hand still.
fn offer_hand<T: Drop, R: Wait>(rt: &R, pool: &mut Pool<T>, job: Option<Job>) -> Option<Job>
    ensures offered { offered_by pool.new ++ hand result ≡ offered_by pool.old ++ hand job }
    ensures full { IfSome result (λ job. Held 64 (StandsPushed (jobs_view pool.new))) }
    ensures pool { IsSamePool pool.old pool.new × (collected_by pool.new ≡ collected_by pool.old) }
{
    match job {
        Some(job) => pool.offer(rt, job).err(),
        None => None,
    }
}

/// Hands each result of the pool to the kernel. One that no request waits for is dropped.
pub(crate) fn hand_results<L: Language, R: Wait>(
    rt: &R,
    kernel: &mut Kernel<L>,
    pool: &mut Pool<ParsedCell<L>>,
)
    ensures log { kernel.new.log ≡ kernel.old.log }
    ensures given { (job : Option Job) (jobs : Hand Job) → HasGiven job jobs kernel.old → HasGiven job jobs kernel.new }
    ensures jobs { jobs_view pool.new ≡ jobs_view pool.old }
    ensures results { Held 0 (StandsTaken (results_view pool.new)) }
    ensures pool { IsSamePool pool.old pool.new × (offered_by pool.new ≡ offered_by pool.old) }
    ensures acts { HandsResults L.spoken kernel.old (collected_by pool.old) kernel.new (collected_by pool.new) }
{
    for _ in rt.forever() {
        match pool.collect(rt) {
            Some(result) => {
                // That a result is of its text its type says: here clauses learn it.
                let _ = result.outcome();
                let _ = kernel.parsed(result);
            }
            None => return,
        }
    }
    unreachable!()
}
