//! A kernel's joins and leaves, published: the simplest source of a board's entries.
ghost use Rattle.std.specs.Prelude.{◌≡◌, [], List, OnOk, IfOk};
ghost use Rattle.jk_log.specs.declared.entry.Entry.{Entry};
ghost use Rattle.jk_board.specs.Ends.{published};
ghost use Rattle.thread_tests.specs.Shown.{HasShown};

use jk_board::Publisher;
use jk_core::Kernel;
use jk_language::Language;
use jk_log::{Arrival, What};
use std::alloc::{AllocError, Global};
use std::sync::Wait;

/// A kernel of which nothing was shown.
pub fn fresh_kernel<L: Language>(alloc: Global) -> Result<Kernel<L>, AllocError>
    ensures { IfOk result (HasShown L.spoken []) }
{
    Kernel::new(alloc)
}

/// What seat 1 sends at this number: by turns a join and a leave, each of which is shown by one entry.
fn arrival(number: u64) -> Arrival {
    let seat = 1;
    let what = if number % 2 == 1 {
        What::Join
    } else {
        What::Leave
    };
    Arrival { seat, number, what }
}

/// Takes an arrival.
fn take_one<L: Language>(kernel: &mut Kernel<L>, arrival: Arrival) -> Result<(), AllocError>
    ensures { OnOk result ((shown : List Entry) → HasShown L.spoken shown kernel.old → HasShown L.spoken shown kernel.new) }
{
    kernel.take(arrival)?;
    Ok(())
}

/// Takes joins and leaves of these numbers.
fn take_joins<L: Language>(
    kernel: &mut Kernel<L>,
    first: u64,
    behind: u64,
) -> Result<(), AllocError>
    ensures { OnOk result ((shown : List Entry) → HasShown L.spoken shown kernel.old → HasShown L.spoken shown kernel.new) }
{
    for number in first..behind {
        take_one(kernel, arrival(number))?;
    }
    Ok(())
}

/// Publishes all that is pending.
#[tactic(auto, using(crate::proofs::Showing::next_board, crate::proofs::Showing::next_shown))]
fn publish_pending<L: Language, R: Wait>(
    rt: &R,
    alloc: Global,
    kernel: &mut Kernel<L>,
    publisher: Publisher<L>,
) -> (Publisher<L>, Result<(), AllocError>)
    requires { HasShown L.spoken (published publisher) kernel.old }
    ensures { OnOk result.1 (HasShown L.spoken (published result.0) kernel.new) }
{
    let marks = kernel.pending_marks();
    let entries = match kernel.take_pending(marks) {
        Ok(entries) => entries,
        Err(error) => return (publisher, Err(error)),
    };
    let (publisher, done) = publisher.publish(rt, alloc, entries);
    if done.is_err() {
        return (publisher, Err(AllocError));
    }
    (publisher, Ok(()))
}

/// Takes the joins and leaves of one publication, and publishes them.
pub fn publish_next<L: Language, R: Wait>(
    rt: &R,
    alloc: Global,
    kernel: &mut Kernel<L>,
    publisher: Publisher<L>,
    first: u64,
    behind: u64,
) -> (Publisher<L>, Result<(), AllocError>)
    requires { HasShown L.spoken (published publisher) kernel.old }
    ensures { OnOk result.1 (HasShown L.spoken (published result.0) kernel.new) }
{
    match take_joins(kernel, first, behind) {
        Ok(()) => publish_pending(rt, alloc, kernel, publisher),
        Err(error) => (publisher, Err(error)),
    }
}

/// Takes joins and leaves of these numbers, and publishes each by itself.
pub fn publish_each<L: Language, R: Wait>(
    rt: &R,
    alloc: Global,
    kernel: &mut Kernel<L>,
    publisher: Publisher<L>,
    first: u64,
    behind: u64,
) -> (Publisher<L>, Result<(), AllocError>)
    requires { HasShown L.spoken (published publisher) kernel.old }
    ensures { OnOk result.1 (HasShown L.spoken (published result.0) kernel.new) }
{
    let mut publisher = publisher;
    for number in first..behind {
        let (same, done) = publish_next(rt, alloc, kernel, publisher, number, number + 1);
        publisher = same;
        if done.is_err() {
            return (publisher, done);
        }
    }
    (publisher, Ok(()))
}

/// Publishes joins and leaves numbered from 1 in so many publications, so many in each.
pub fn publish_joins<L: Language, R: Wait>(
    rt: &R,
    alloc: Global,
    publisher: Publisher<L>,
    publications: u32,
    each: u32,
) -> (Publisher<L>, Result<(), AllocError>)
    requires { published publisher ≡ [] }
{
    let mut kernel = match fresh_kernel::<L>(alloc) {
        Ok(kernel) => kernel,
        Err(error) => return (publisher, Err(error)),
    };
    let mut publisher = publisher;
    for place in 0..publications {
        let first = u64::from(place) * u64::from(each) + 1;
        let behind = first + u64::from(each);
        let (same, done) = publish_next(rt, alloc, &mut kernel, publisher, first, behind);
        publisher = same;
        if done.is_err() {
            return (publisher, done);
        }
    }
    (publisher, Ok(()))
}
