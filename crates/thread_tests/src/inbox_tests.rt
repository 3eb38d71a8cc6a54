//! Seats in threads of their own send to one taker.
ghost use Rattle.std.specs.Prelude.{◌≡◌, ◌+◌, length, IfOk};
ghost use Rattle.jk_queues.specs.Ends.{seat_inbox, taker_inbox, sent_by};

use jk_log::{Arrival, What};
use jk_queues::{Inbox, Seat, Seats, Taker, close};
use std::alloc::{AllocError, Global};
use std::snapshot::Snapshot;
use std::sync::Wait;
use std::test::Fail;
use std::thread;
use std::thread::{Promise, PromisedHandle, Threads};

/// The seat comes back to the same inbox.
#[derive(Drop)]
struct ComesBack(Snapshot<Seat>);

impl Promise<Seat> for ComesBack {
    ghost use Rattle.std.specs.Prelude.{◌≡◌};
    ghost use Rattle.jk_queues.specs.Ends.{seat_inbox};

    ghost kept_by = { λ p s. (seat_inbox s ≡ seat_inbox p.0.value) × (s.place ≡ p.0.value.place) };
}

/// Sends an arrival, and tries again while the inbox is full.
fn send<R: Wait>(rt: &R, seat: Seat) -> Seat
    ensures { (seat_inbox result ≡ seat_inbox seat) × (result.place ≡ seat.place) }
{
    let mut seat = seat;
    let mut arrival = Arrival {
        seat: seat.place(),
        number: seat.next_number(),
        what: What::Join,
    };
    for _ in rt.forever() {
        let (same, sent) = seat.submit(rt, arrival);
        match sent {
            Ok(()) => return same,
            Err(full) => arrival = full.arrival,
        }
        seat = same;
        thread::yield_now();
    }
    unreachable!()
}

fn send_hundred<R: Wait>(rt: &R, seat: Seat) -> Seat
    ensures { (seat_inbox result ≡ seat_inbox seat) × (result.place ≡ seat.place) }
{
    let mut seat = seat;
    for _ in 0..100 {
        seat = send(rt, seat);
    }
    seat
}

fn begin<R>(rt: R, seat: Seat) -> Result<PromisedHandle<Seat, ComesBack>, AllocError>
where
    R: Threads + Wait + Copy + Send + 'static,
    ensures { IfOk result (λ h. (seat_inbox h.promise.0.value ≡ seat_inbox seat) × (h.promise.0.value.place ≡ seat.place)) }
{
    let promise = ComesBack(Snapshot::of(&seat));
    Ok(thread::spawn_with(&rt, promise, move || { send_hundred(&rt, seat) })?)
}

/// Takes until so many are taken.
fn take<R: Wait>(
    rt: &R,
    taker: Taker,
    taken: &mut Vec<Arrival>,
    count: usize,
) -> Result<Taker, AllocError>
    ensures { IfOk result (λ t. taker_inbox t ≡ taker_inbox taker) }
{
    let mut taker = taker;
    for _ in rt.forever() {
        if taken.len() >= count {
            break;
        }
        let (same, first) = taker.pop(rt);
        taker = same;
        match first {
            Some(arrival) => taken.push(arrival)?,
            None => thread::yield_now(),
        }
    }
    Ok(taker)
}

/// Whether the arrivals of each seat are numbered from 1, in order, a hundred of each.
fn are_all_hundreds(arrivals: &[Arrival]) -> bool {
    (0u8..8).all(|seat| {
        arrivals
            .iter()
            .filter(|a| a.seat == seat)
            .map(|a| a.number)
            .eq(1..101u64)
    })
}

#[test]
fn eight_seats(rt: HostRuntime) -> Result<(), Fail> {
    let alloc = rt.alloc();
    let Inbox { taker, seats } = Inbox::new(alloc)?;
    let zero = begin(rt, seats.zero)?;
    let one = begin(rt, seats.one)?;
    let two = begin(rt, seats.two)?;
    let three = begin(rt, seats.three)?;
    let four = begin(rt, seats.four)?;
    let five = begin(rt, seats.five)?;
    let six = begin(rt, seats.six)?;
    let seven = begin(rt, seats.seven)?;
    let mut taken = Vec::new(alloc);
    let taker = take(&rt, taker, &mut taken, 600)?;
    let seats = Seats {
        zero: zero.join(&rt),
        one: one.join(&rt),
        two: two.join(&rt),
        three: three.join(&rt),
        four: four.join(&rt),
        five: five.join(&rt),
        six: six.join(&rt),
        seven: seven.join(&rt),
    };
    let left = close(&rt, taker, seats);
    assert_eq!(rt; left.arrivals.len(), 200);
    for arrival in left.arrivals {
        taken.push(arrival)?;
    }
    assert!(rt; are_all_hundreds(&taken));
    Ok(())
}

#[test]
fn two_hundred_and_fifty_seven(rt: HostRuntime) -> Result<(), Fail> {
    let alloc = rt.alloc();
    let Inbox { taker, seats } = Inbox::new(alloc)?;
    let mut seat = seats.three;
    for number in 1..257u64 {
        seat = send(&rt, seat);
        assert_eq!(rt; seat.next_number(), number + 1);
    }
    let last = Arrival {
        seat: seat.place(),
        number: seat.next_number(),
        what: What::Leave,
    };
    let (seat, refused) = seat.submit(&rt, last);
    let full = refused.err().ok_or("the inbox had room")?;
    assert_eq!(rt; full.arrival.number, 257);
    assert!(rt; matches!(full.arrival.what, What::Leave));
    assert_eq!(rt; seat.next_number(), 257);
    let seats = Seats {
        zero: seats.zero,
        one: seats.one,
        two: seats.two,
        three: seat,
        four: seats.four,
        five: seats.five,
        six: seats.six,
        seven: seats.seven,
    };
    let left = close(&rt, taker, seats);
    assert_eq!(rt; left.arrivals.len(), 256);
    Ok(())
}
