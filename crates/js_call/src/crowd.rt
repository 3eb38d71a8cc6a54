//! How many connections have a thread.
ghost use Rattle.std.specs.Prelude.{◌≤◌, vec_len};

use crate::turns::Turns;
use std::alloc::{AllocError, Global};
use std::net::TcpStream;
use std::sync::Arc;
use std::sync::atomic::{AtomicU64, Ordering};

/// The count of the connections that have a thread, and how many may have one.
#[derive(Drop)]
pub struct Crowd {
    count: Arc<AtomicU64, Global>,
    most: u64,
    turns: Turns,
}

/// One connection of a crowd. It has left where this is dropped.
pub struct Ticket {
    count: Arc<AtomicU64, Global>,
    pub turns: Turns,
}

impl Drop for Ticket {
    fn drop(self) {
        self.count.fetch_sub(1, Ordering::SeqCst);
        let Ticket { count: _, turns: _ } = self;
    }
}

/// A connection that was accepted.
#[derive(Drop)]
pub struct Guest {
    pub stream: TcpStream,
    pub ticket: Ticket,
}

impl Crowd {
    /// Nobody is there, and `most` may be.
    pub fn new(alloc: Global, most: u64) -> Result<Crowd, AllocError> {
        Ok(Crowd {
            count: Arc::new(alloc, AtomicU64::new(0))?,
            most,
            turns: Turns::new(alloc)?,
        })
    }

    /// Lets one more in, where there is room.
    pub fn enter(&self) -> Option<Ticket> {
        if self.count.load(Ordering::SeqCst) >= self.most {
            return None;
        }
        let count = Arc::try_clone(&self.count).ok()?;
        let turns = self.turns.another().ok()?;
        self.count.fetch_add(1, Ordering::SeqCst);
        Some(Ticket { count, turns })
    }
}

/// How many connections that were turned away are kept.
const KEPT: usize = 64;

/// The last connections that were turned away. Each was answered, and what is written to it has ended; were it closed at once, the
/// system would take the answer back from whoever still sends a request.
#[derive(Drop)]
pub struct Turned {
    streams: Vec<TcpStream>,
}

impl Turned {
    /// No connection is kept. It allocates nothing.
    pub fn new(alloc: Global) -> Turned {
        Turned {
            streams: Vec::new(alloc),
        }
    }

    /// Keeps a connection, and closes the one that was kept longest where there are many. It is closed where memory is refused.
    pub fn keep(&mut self, stream: TcpStream)
        ensures { vec_len self.new.streams ≤ 64 }
    {
        let extra = (self.streams.len() + 1).saturating_sub(KEPT);
        drop(self.streams.drain(..extra));
        let _ = self.streams.push(stream);
    }
}
