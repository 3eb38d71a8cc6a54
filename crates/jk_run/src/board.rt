//! Publishing what is pending.
ghost use Rattle.std.specs.Prelude.{◌≡◌, ◌++◌, true, None, Some, length, take, IfOk, OnOk, OnErr, MatchOption};
ghost use Rattle.jk_log.specs.Render.{render};
ghost use Rattle.jk_log.specs.Pending.{joined};
ghost use Rattle.jk_core.specs.Steps.{without};
ghost use Rattle.jk_board.specs.Ends.{published, publisher_of};
ghost use Rattle.jk_run.specs.Driver.{Publishes};
ghost use Rattle.jk_run.specs.Hand.{hand_entries};

use jk_board::Publisher;
use jk_core::Kernel;
use jk_language::Language;
use jk_log::Entry;
use jk_queues::Spare;
use std::alloc::{AllocError, Global};
use std::sync::Wait;

/// Publishes all that is pending. It says whether it did: entries that find no memory, also once the spare block is let go, are in
/// hand after it, or are pending still.
pub(crate) fn publish_pending<L: Language, R: Wait>(
    rt: &R,
    alloc: Global,
    kernel: &mut Kernel<L>,
    publisher: Publisher<L>,
    spare: &mut Spare,
) -> (Publisher<L>, Option<Vec<Entry>>, bool)
    requires { published publisher ++ joined kernel.old.pending ≡ render kernel.old.log }
    ensures log { kernel.new.log ≡ kernel.old.log }
    ensures own { publisher_of result.0 ≡ publisher_of publisher }
    ensures shown { published result.0 ++ (hand_entries result.1 ++ joined kernel.new.pending) ≡ render kernel.new.log }
    ensures all { result.2 ≡ true → (result.1 ≡ None) × (kernel.new ≡ without (length kernel.old.pending) kernel.old) }
    ensures acts { Publishes L.spoken kernel.old (published publisher) result.1 kernel.new (published result.0) }
{
    let marks = kernel.pending_marks();
    match take_pending(kernel, marks, spare) {
        Ok(entries) => {
            let (publisher, back) = publish(rt, alloc, kernel, publisher, entries, spare);
            let all = back.is_none();
            (publisher, back, all)
        }
        Err(_) => (publisher, None, false),
    }
}

/// Takes the entries of `most` pending marks. Where memory is refused, it lets the spare block go and tries once more.
fn take_pending<L: Language>(
    kernel: &mut Kernel<L>,
    most: usize,
    spare: &mut Spare,
) -> Result<Vec<Entry>, AllocError>
    ensures entries { IfOk result (λ entries. entries.items ≡ joined (take most kernel.old.pending)) }
    ensures ok { OnOk result (kernel.new ≡ without most kernel.old) }
    ensures err { OnErr result (kernel.new ≡ kernel.old) }
{
    match kernel.take_pending(most) {
        Ok(entries) => Ok(entries),
        Err(error) => {
            if spare.let_go() {
                kernel.take_pending(most)
            } else {
                Err(error)
            }
        }
    }
}

/// Publishes the entries in hand, if there are any. Those that find no memory are in hand still.
pub(crate) fn publish_hand<L: Language, R: Wait>(
    rt: &R,
    alloc: Global,
    kernel: &Kernel<L>,
    publisher: Publisher<L>,
    entries: Option<Vec<Entry>>,
    spare: &mut Spare,
) -> (Publisher<L>, Option<Vec<Entry>>)
    requires { published publisher ++ (hand_entries entries ++ joined kernel.now.pending) ≡ render kernel.now.log }
    ensures own { publisher_of result.0 ≡ publisher_of publisher }
    ensures published { MatchOption result.1 (published result.0 ≡ published publisher ++ hand_entries entries) (λ back. (entries ≡ Some back) × (published result.0 ≡ published publisher)) }
{
    match entries {
        Some(entries) => publish(rt, alloc, kernel, publisher, entries, spare),
        None => (publisher, None),
    }
}

/// Publishes entries. They come back where memory is refused, also once the spare block is let go. Where there are none, the board
/// lets go of what was read.
fn publish<L: Language, R: Wait>(
    rt: &R,
    alloc: Global,
    kernel: &Kernel<L>,
    publisher: Publisher<L>,
    entries: Vec<Entry>,
    spare: &mut Spare,
) -> (Publisher<L>, Option<Vec<Entry>>)
    requires { published publisher ++ (entries.items ++ joined kernel.now.pending) ≡ render kernel.now.log }
    ensures own { publisher_of result.0 ≡ publisher_of publisher }
    ensures published { MatchOption result.1 (published result.0 ≡ published publisher ++ entries.items) (λ back. (back ≡ entries) × (published result.0 ≡ published publisher)) }
{
    if entries.is_empty() {
        return (publisher.let_go(rt, alloc), None);
    }
    let (publisher, back) = try_publish(rt, alloc, kernel, publisher, entries);
    match back {
        None => (publisher, None),
        Some(entries) => {
            if spare.let_go() {
                try_publish(rt, alloc, kernel, publisher, entries)
            } else {
                (publisher, Some(entries))
            }
        }
    }
}

/// Publishes entries. They come back where memory is refused.
fn try_publish<L: Language, R: Wait>(
    rt: &R,
    alloc: Global,
    kernel: &Kernel<L>,
    publisher: Publisher<L>,
    entries: Vec<Entry>,
) -> (Publisher<L>, Option<Vec<Entry>>)
    requires { published publisher ++ (entries.items ++ joined kernel.now.pending) ≡ render kernel.now.log }
    ensures own { publisher_of result.0 ≡ publisher_of publisher }
    ensures published { MatchOption result.1 (published result.0 ≡ published publisher ++ entries.items) (λ back. (back ≡ entries) × (published result.0 ≡ published publisher)) }
{
    kernel.legal();
    let (publisher, done) = publisher.publish(rt, alloc, entries);
    match done {
        Ok(()) => (publisher, None),
        Err((back, _)) => (publisher, Some(back)),
    }
}
