//! How a stream rests: it waits for its socket, and for whoever wakes it.

use mio::unix::SourceFd;
use mio::{Events, Interest, Poll, Token, Waker};
use std::alloc::Global;
use std::io;
use std::net::{Net, TcpStream};
use std::os::fd::AsRawFd;
use std::sync::Arc;
use std::sync::atomic::{AtomicU64, Ordering};
use std::time::Duration;

/// Names the socket among what is waited for, and whoever wakes the stream.
const SOCKET: Token = Token(0);

const WAKER: Token = Token(1);

/// What a stream does: it looks, or it rests.
const AWAKE: u64 = 0;

const RESTS: u64 = 1;

/// It was called since it looked last.
const CALLED: u64 = 2;

/// The end by which others wake a stream.
#[derive(Drop)]
pub struct Waking {
    state: Arc<AtomicU64, Global>,
    waker: Waker,
}

impl Waking {
    /// Has the stream look for something new. Where it rests, its rest ends; else it finds that it was called at its next read.
    pub fn wake(&self) {
        if self.state.swap(CALLED, Ordering::SeqCst) == RESTS {
            let _ = self.waker.wake();
        }
    }
}

/// The system's readiness, for a stream that is still to come. The thread that may use the network makes it, and gives it to that of
/// the stream.
#[derive(Drop)]
pub struct Selector {
    poll: Poll,
}

impl Selector {
    /// No stream is waited for yet. It takes one descriptor.
    ///
    /// # Errors
    /// Where the system has no descriptor for it.
    pub fn new<R: Net>(rt: &R) -> io::Result<Selector> {
        Ok(Selector {
            poll: Poll::new(rt)?,
        })
    }
}

/// The end by which a stream rests.
#[derive(Drop)]
pub struct Rest {
    state: Arc<AtomicU64, Global>,
    poll: Poll,
    events: Events<Global>,
}

impl Rest {
    /// The two ends of a stream.
    ///
    /// # Errors
    /// Where the system has no descriptor for them, or memory is refused.
    pub fn new(
        alloc: Global,
        selector: Selector,
        stream: &TcpStream,
    ) -> io::Result<(Rest, Waking)> {
        let state = Arc::new(alloc, AtomicU64::new(AWAKE))?;
        let theirs = Arc::try_clone(&state)?;
        let events = Events::with_capacity(alloc, 2)?;
        let Selector { poll } = selector;
        let descriptor = stream.as_raw_fd();
        let mut source = SourceFd(&descriptor);
        poll.registry()
            .register(&mut source, SOCKET, Interest::READABLE)?;
        let waker = Waker::new(poll.registry(), WAKER)?;
        let waking = Waking {
            state: theirs,
            waker,
        };
        let rest = Rest {
            state,
            poll,
            events,
        };
        Ok((rest, waking))
    }

    /// Whether the stream was called since this was asked last.
    pub(crate) fn was_called(&self) -> bool {
        self.state.swap(AWAKE, Ordering::SeqCst) == CALLED
    }

    /// Waits until something comes, the stream is called, or `longest` milliseconds have passed. It says whether the stream was
    /// called. What had come before has been read: the system tells only what comes then.
    ///
    /// # Errors
    /// Where the system does not wait.
    pub(crate) fn wait(&mut self, longest: u64) -> io::Result<bool> {
        let rests = self
            .state
            .compare_exchange(AWAKE, RESTS, Ordering::SeqCst, Ordering::SeqCst);
        if rests.is_ok() {
            let ended = self
                .poll
                .poll(&mut self.events, Some(Duration::from_millis(longest)));
            let called = self.was_called();
            ended?;
            return Ok(called);
        }
        Ok(self.was_called())
    }
}
