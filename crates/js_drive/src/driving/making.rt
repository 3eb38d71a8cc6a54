//! How a kernel is made, with all its ends.
ghost use Rattle.std.specs.Prelude.{◌≡◌, [], IfOk, IfSome, map};
ghost use Rattle.jk_board.specs.Ends.{AreFollowersOf};
ghost use Rattle.jk_core.specs.State.{fresh};
ghost use Rattle.jk_queues.specs.Ends.{AreAllOf, IsNew, seat_inbox, taken_by, taker_inbox};
ghost use Rattle.jk_queues.specs.Pool.{offered_by, collected_by};
ghost use Rattle.js_drive.specs.Threads.{AreNewEndsOf};
ghost use Rattle.js_drive.specs.Parsers.{AreParsersOf};

use super::{Bells, NewKernel, Opened, Opening};
use crate::bell::Bell;
use crate::parser::Parser;
use crate::wakes::Wakes;
use jk_board::{Board, Followers};
use jk_core::Kernel;
use jk_language::Language;
use jk_log::ParsedCell;
use jk_queues::{Inbox, Pool, Seats, Taker, WorkerEnd};
use jk_run::Driver;
use js_home::Home;
use std::alloc::{AllocError, Global};
use std::sync::Wait;

/// How many threads parse cells for one kernel.
const WORKERS: usize = 2;

/// A new kernel with the ends of its driver but for the publisher, and the ends of others.
#[derive(Drop)]
struct Made<L: Language> {
    kernel: Kernel<L>,
    taker: Taker,
    pool: Pool<ParsedCell<L>>,
    parsers: Vec<Parser<L>>,
    opened: Opened<L>,
    bells: Bells,
}

/// A new kernel that takes from this inbox, with the followers of its board.
fn make<L: Language>(
    alloc: Global,
    inbox: Inbox,
    followers: Followers<L>,
) -> Result<Made<L>, AllocError>
    requires taker { taken_by inbox.taker ≡ [] }
    requires seats { AreAllOf (taker_inbox inbox.taker) inbox.seats }
    requires untold { IsNew inbox.seats.zero }
    requires followers { AreFollowersOf (taker_inbox inbox.taker) followers }
    ensures kernel { IfOk result (λ made. made.kernel ≡ fresh) }
    ensures taker { IfOk result (λ made. taken_by made.taker ≡ []) }
    ensures own { IfOk result (λ made. taker_inbox made.taker ≡ taker_inbox inbox.taker) }
    ensures inbox { IfOk result (λ made. seat_inbox made.opened.home.zero ≡ taker_inbox made.taker) }
    ensures pool { IfOk result (λ made. (offered_by made.pool ≡ []) × (collected_by made.pool ≡ [])) }
    ensures parsers { IfOk result (λ made. AreNewEndsOf made.pool (map (λ p. p.end) made.parsers.items)) }
{
    let Inbox { taker, seats } = inbox;
    let (pool, workers) = Pool::<ParsedCell<L>>::new(alloc, WORKERS)?;
    let kernel = Kernel::<L>::new(alloc)?;
    let wakes = Wakes::new(alloc)?;
    let opened = ends_of(alloc, seats, followers, wakes.another()?)?;
    let (parsers, theirs) = parsers_of(alloc, workers, &wakes.driver)?;
    let bells = Bells {
        wakes,
        parsers: theirs,
    };
    Ok(Made {
        kernel,
        taker,
        pool,
        parsers,
        opened,
        bells,
    })
}

/// The parsers, and the bells by which they rest.
fn parsers_of<L: Language>(
    alloc: Global,
    workers: Vec<WorkerEnd<ParsedCell<L>>>,
    driver: &Bell,
) -> Result<(Vec<Parser<L>>, Vec<Bell>), AllocError>
    ensures { IfOk result (λ made. map (λ p. p.end) made.0.items ≡ workers.items) }
{
    let mut parsers = Vec::with_capacity(alloc, WORKERS)?;
    let mut bells = Vec::with_capacity(alloc, WORKERS)?;
    for end in workers {
        let bell = Bell::new(alloc)?;
        bells.push(bell.another()?)?;
        let driver = driver.another()?;
        parsers.push(Parser { end, bell, driver })?;
    }
    Ok((parsers, bells))
}

/// The ends that the desk holds. There is memory for all of them before anything is handed out.
fn ends_of<L: Language>(
    alloc: Global,
    seats: Seats,
    followers: Followers<L>,
    wakes: Wakes,
) -> Result<Opened<L>, AllocError>
    requires seats { AreAllOf (seat_inbox seats.zero) seats }
    requires untold { IsNew seats.zero }
    requires followers { AreFollowersOf (seat_inbox seats.zero) followers }
    ensures { IfOk result (λ opened. opened.home.zero ≡ seats.zero) }
{
    let Followers {
        zero: watch,
        one: first,
        two: second,
        three: third,
        four: fourth,
        five: fifth,
        six: sixth,
        seven: seventh,
        recorder,
    } = followers;
    let places = [first, second, third, fourth, fifth, sixth, seventh];
    let home = Home::new(alloc, seats, places)?;
    Ok(Opened {
        home,
        wakes,
        watch,
        recorder,
    })
}

/// Makes a kernel and its parsers, which are all of its driver's pool. Where memory is refused there is none, and nothing is handed
/// out.
pub fn make_kernel<L: Language, R: Wait>(
    rt: &R,
    alloc: Global,
    opening: Opening<L>,
) -> Option<(Vec<Parser<L>>, NewKernel<L>)>
    ensures { IfSome result (λ made. AreParsersOf made.1 made.0.items) }
{
    let Ok(inbox) = Inbox::new(alloc) else {
        return None;
    };
    let Ok(
        Board {
            publisher,
            followers,
        },
    ) = Board::<L>::new(rt, alloc, &inbox.taker)
    else {
        return None;
    };
    let Ok(made) = make::<L>(alloc, inbox, followers) else {
        publisher.end(rt);
        return None;
    };
    let Made {
        kernel,
        taker,
        pool,
        parsers,
        opened,
        bells,
    } = made;
    let driver = Driver::new(alloc, kernel, taker, pool, publisher);
    let new = NewKernel {
        driver,
        opening,
        opened,
        bells,
    };
    Some((parsers, new))
}
