//! What a driver holds, and how it is made of its parts and taken apart.
ghost use Rattle.std.specs.Prelude.{◌≡◌, ◌++◌, [], None};
ghost use Rattle.jk_log.specs.Log.{takes};
ghost use Rattle.jk_log.specs.Render.{render};
ghost use Rattle.jk_core.specs.State.{fresh};
ghost use Rattle.jk_log.specs.Pending.{joined};
ghost use Rattle.jk_queues.specs.Ends.{taken_by, taker_inbox};
ghost use Rattle.jk_board.specs.Ends.{published, publisher_of};
ghost use Rattle.jk_run.specs.Hand.{hand, hand_entries};

use jk_board::Publisher;
use jk_core::Kernel;
use jk_language::Language;
use jk_log::{Arrival, Entry, Job, ParsedCell};
use jk_queues::{Pool, Spare, Taker};
use std::alloc::Global;

/// A kernel with its driver's ends of the inbox, the pool and the board. In hand is at most one arrival that found no
/// memory in the kernel, one job that found no room in the pool, and one list of entries that found no memory on the
/// board. A result is never in hand, since handing it to the kernel takes no memory. A spare block is let go where memory is
/// refused to an arrival or to what is shown.
pub struct Driver<L: Language> {
    pub(crate) alloc: Global,
    pub(crate) kernel: Kernel<L>,
    pub(crate) taker: Taker,
    pub(crate) pool: Pool<ParsedCell<L>>,
    pub(crate) publisher: Publisher<L>,
    pub(crate) arrival: Option<Arrival>,
    pub(crate) job: Option<Job>,
    pub(crate) entries: Option<Vec<Entry>>,
    pub(crate) spare: Spare,
    /// The arrivals that the kernel took, and then the one in hand, are those that the taker took.
    ghost took: { takes kernel.log ++ hand arrival ≡ taken_by taker },
    /// The board was made for the kernel that takes from this inbox.
    ghost own: { publisher_of publisher ≡ taker_inbox taker },
    /// What was published, what is in hand and what is pending are what is shown of the log.
    ghost shown: { published publisher ++ (hand_entries entries ++ joined kernel.pending) ≡ render kernel.log },
}

/// What a driver was made of, and what it has in hand.
pub struct Parts<L: Language> {
    pub kernel: Kernel<L>,
    pub taker: Taker,
    pub pool: Pool<ParsedCell<L>>,
    pub publisher: Publisher<L>,
    pub arrival: Option<Arrival>,
    pub job: Option<Job>,
    pub entries: Option<Vec<Entry>>,
}

impl<L: Language> Driver<L> {
    /// The driver of a kernel that has taken nothing, with new ends. The board was made for the inbox from which the taker takes.
    pub fn new(
        alloc: Global,
        kernel: Kernel<L>,
        taker: Taker,
        pool: Pool<ParsedCell<L>>,
        publisher: Publisher<L>,
    ) -> Driver<L>
        requires kernel { kernel ≡ fresh }
        requires taker { taken_by taker ≡ [] }
        requires publisher { published publisher ≡ [] }
        requires own { publisher_of publisher ≡ taker_inbox taker }
        ensures kernel { result.kernel ≡ kernel }
        ensures ends { (result.taker ≡ taker) × (result.pool ≡ pool) × (result.publisher ≡ publisher) }
        ensures hands { (result.arrival ≡ None) × (result.job ≡ None) × (result.entries ≡ None) }
    {
        Driver {
            alloc,
            kernel,
            taker,
            pool,
            publisher,
            arrival: None,
            job: None,
            entries: None,
            spare: Spare::new(),
        }
    }

    /// Takes the driver apart. Its publisher has to be ended.
    pub fn into_parts(self) -> Parts<L>
        ensures kernel { result.kernel ≡ self.kernel }
        ensures ends { (result.taker ≡ self.taker) × (result.pool ≡ self.pool) × (result.publisher ≡ self.publisher) }
        ensures hands { (result.arrival ≡ self.arrival) × (result.job ≡ self.job) × (result.entries ≡ self.entries) }
    {
        let Driver {
            alloc: _,
            kernel,
            taker,
            pool,
            publisher,
            arrival,
            job,
            entries,
            spare: _,
        } = self;
        Parts {
            kernel,
            taker,
            pool,
            publisher,
            arrival,
            job,
            entries,
        }
    }
}
