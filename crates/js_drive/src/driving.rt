//! The thread of a kernel: it hands out the ends of others, and drives the kernel to its end.
ghost use Rattle.std.specs.Prelude.{◌≡◌, length, true};
ghost use Rattle.std.specs.Coded.{Coded-set, codes};
ghost use Rattle.json_form.specs.contracts.kept.Json as json;
ghost use Rattle.jk_board.specs.Ends.{board_of};
ghost use Rattle.jk_queues.specs.Ends.{seat_inbox, sent_by, taker_inbox};
ghost use Rattle.js_drive.specs.Threads.{IsKernelsEnd, IsNewDriver};

use crate::bell::{Bell, Driving};
use crate::wakes::Wakes;
use crossbeam_channel::{Receiver, Sender};
use jk_board::Follower;
use jk_language::Language;
use jk_run::{Driver, Parts, drive};
use js_home::Home;
use std::cell::Cell;
use std::sync::Wait;
use std::time::Clock;

mod making;

pub use making::make_kernel;

/// What a kernel that is to be made is given.
#[derive(Drop)]
pub struct Opening<L: Language> {
    /// Where the ends of others go.
    pub opened: Sender<Opened<L>>,
    /// Where they come back once nobody follows the kernel any more.
    pub returned: Receiver<Returned<L>>,
}

/// The ends of a kernel that nobody follows any more: all its places are free.
#[derive(Drop)]
pub struct Returned<L: Language> {
    pub home: Home<L>,
    pub watch: Option<Follower<L>>,
    pub recorder: Option<Follower<L>>,
    ghost free: { length home.lent.items ≡ 0 },
}

/// The ends of a new kernel that the desk holds. All who follow follow the board of the kernel that takes from the home's inbox, and
/// its seat 0 has told nothing.
#[derive(Drop)]
pub struct Opened<L: Language> {
    /// Seat 0, and the places that are lent.
    pub home: Home<L>,
    /// What wakes the driver and the channels.
    pub wakes: Wakes,
    /// The follower of seat 0.
    pub watch: Follower<L>,
    /// The follower for a recorder.
    pub recorder: Follower<L>,
    ghost watched: { board_of watch ≡ seat_inbox home.zero },
    ghost recorded: { board_of recorder ≡ seat_inbox home.zero },
    ghost untold: { length (sent_by home.zero) ≡ 0 },
}

/// What wakes a driver and its channels, and the bells by which its parsers rest.
#[derive(Drop)]
struct Bells {
    wakes: Wakes,
    parsers: Vec<Bell>,
}

/// A kernel that was made, and whose parsers have no threads yet. The desk's ends are of the inbox from which its driver takes. The
/// driver has done nothing. It ends by `drive_kernel`.
pub struct NewKernel<L: Language> {
    driver: Driver<L>,
    opening: Opening<L>,
    opened: Opened<L>,
    bells: Bells,
    ghost own: { seat_inbox opened.home.zero ≡ taker_inbox driver.taker },
    ghost untouched: { IsNewDriver driver } by { Prim.hlevel (Coded-set, codes, json.the_row.coded, L.Tree.code) },
}

/// Hands out the ends of others, and drives the kernel until it was shut down and nobody follows it any more. Where not all of
/// its parsers have threads nothing is handed out.
pub fn drive_kernel<L: Language, R: Wait + Clock>(rt: &R, new: NewKernel<L>, parses: bool) {
    let (driver, returned) = drive_new(rt, new, parses);
    finish(rt, driver, returned);
}

/// Does the same, and hands back the driver, whose publisher may be ended now, with the ends that have come back: there are none
/// where nothing was handed out, or whoever had them is gone.
fn drive_new<L: Language, R: Wait + Clock>(
    rt: &R,
    new: NewKernel<L>,
    parses: bool,
) -> (Driver<L>, Option<Returned<L>>)
    ensures { IsKernelsEnd L.spoken parses new.driver result.0 }
{
    let NewKernel {
        driver,
        opening,
        opened,
        bells,
    } = new;
    if parses {
        run(rt, opening, opened, driver, &bells)
    } else {
        drop((opening, opened));
        (driver, None)
    }
}

/// Hands out the ends of others, and drives the kernel. Once that has ended, its channels are told so: from then on none waits long for
/// a screen that takes nothing.
fn run<L: Language, R: Wait + Clock>(
    rt: &R,
    opening: Opening<L>,
    ends: Opened<L>,
    driver: Driver<L>,
    bells: &Bells,
) -> (Driver<L>, Option<Returned<L>>)
    requires { IsNewDriver driver }
    ensures { IsKernelsEnd L.spoken true driver result.0 }
{
    let Opening { opened, returned } = opening;
    let _ = opened.send(rt, ends);
    drop(opened);
    let driving = Driving {
        rt,
        wakes: &bells.wakes,
        parsers: bells.parsers.as_slice(),
        slept: Cell::new(0),
        woke: Cell::new(0),
    };
    let driver = drive(&driving, driver);
    bells.wakes.channels.end();
    driving.ring_parsers();
    let returned = returned.recv(rt).ok();
    (driver, returned)
}

/// Takes the driver apart, stops its parsers and ends the board, after the ends that followed it are gone.
fn finish<L: Language, R: Wait>(rt: &R, driver: Driver<L>, returned: Option<Returned<L>>) {
    drop(returned);
    let Parts {
        kernel,
        taker,
        mut pool,
        publisher,
        arrival,
        job,
        entries,
    } = driver.into_parts();
    pool.stop(rt);
    publisher.end(rt);
    drop((kernel, taker, pool, arrival, job, entries));
}
