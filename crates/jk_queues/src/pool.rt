//! The pool of workers: jobs go to any worker, and what comes of them goes back to the driver.
ghost use Rattle.std.specs.Prelude.{◌≡◌, true};
ghost use Rattle.std.specs.Arc.{arc_value};
ghost use Rattle.crossbeam_queue.specs.Passes.{view, IsPassOf, ruled_capacity};
ghost use Rattle.crossbeam_utils.specs.Seq.{cell_view};

use crate::line::{Hand, OnePusher, OneTaker};
use crate::stop::{Known, Stop};
use crossbeam_queue::{Pass, RuledArrayQueue};
use crossbeam_utils::atomic::seq_cell;
use jk_log::Job;
use std::alloc::Global;
use std::sync::Arc;

mod steps;
mod work;

pub use work::{Gate, Round, worker};

/// How many jobs or results may stand in a queue.
pub const ROOM: usize = 64;

/// The queue of jobs.
pub type Jobs = RuledArrayQueue<Job, Hand<Job>, OnePusher>;

/// The queue of what comes of jobs.
pub type Results<T> = RuledArrayQueue<T, Hand<T>, OneTaker>;

/// The driver's end. `T` is what comes of a job.
#[derive(Drop)]
pub struct Pool<T> {
    jobs: Arc<Jobs, Global>,
    results: Arc<Results<T>, Global>,
    offered: Pass<Job, Hand<Job>>,
    collected: Pass<T, Hand<T>>,
    stop: Arc<Stop, Global>,
    stopping: seq_cell::Pass<[u64; 1], Known>,
    ghost of_jobs: { IsPassOf (arc_value jobs) offered },
    ghost of_results: { IsPassOf (arc_value results) collected },
    ghost room: { ruled_capacity (arc_value jobs) ≡ 64 },
    ghost offers: { (view offered).sole ≡ true },
    ghost collects: { (view collected).sole ≡ true },
    ghost of_stop: { stopping.table_id ≡ (arc_value stop).table.shared.table_id },
    ghost stops: { (cell_view stopping).stops ≡ true },
}

/// The end of one worker. `T` is what comes of a job.
#[derive(Drop)]
pub struct WorkerEnd<T> {
    jobs: Arc<Jobs, Global>,
    results: Arc<Results<T>, Global>,
    taken: Pass<Job, Hand<Job>>,
    made: Pass<T, Hand<T>>,
    stop: Arc<Stop, Global>,
    stopping: seq_cell::Pass<[u64; 1], Known>,
    ghost of_jobs: { IsPassOf (arc_value jobs) taken },
    ghost of_results: { IsPassOf (arc_value results) made },
    ghost of_stop: { stopping.table_id ≡ (arc_value stop).table.shared.table_id },
}
