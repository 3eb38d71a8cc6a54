//! The threads that parse the cells of a kernel.
ghost use Rattle.jk_queues.specs.Work.{HasWorked};

use crate::bell::{Bell, Belled};
use jk_language::Language;
use jk_log::ParsedCell;
use jk_queues::{Gate, WorkerEnd, worker};
use std::alloc::Global;
use std::sync::Wait;
use std::time::Clock;

/// The end of a kernel's parser, the bell by which it rests, and that of its driver.
#[derive(Drop)]
pub struct Parser<L: Language> {
    pub(crate) end: WorkerEnd<ParsedCell<L>>,
    pub(crate) bell: Bell,
    pub(crate) driver: Bell,
}

/// Lets every job of a parser pass, and rings the driver's bell after each.
#[derive(Drop)]
struct Rings {
    driver: Bell,
}

impl Gate for Rings {
    fn before(&self, _job: u64) {}

    fn after(&self, _job: u64) {
        self.driver.ring();
    }
}

/// Parses the cells of one kernel until its driver stops.
pub fn parse<L: Language, R: Wait + Clock>(rt: &R, alloc: Global, parser: Parser<L>) {
    drop(parse_all(rt, alloc, parser));
}

/// Does the same, and hands back the parser's end. The results of the jobs that it took are handed in, in order, but for one that
/// was perhaps in hand where the pool was found stopped.
fn parse_all<L: Language, R: Wait + Clock>(
    rt: &R,
    alloc: Global,
    parser: Parser<L>,
) -> WorkerEnd<ParsedCell<L>>
    ensures { HasWorked parser.end result }
{
    let Parser { end, bell, driver } = parser;
    let belled = Belled { rt, bell: &bell };
    let rings = Rings { driver };
    worker::<L, Belled<'_, R>, Rings>(&belled, alloc, &rings, end)
}
