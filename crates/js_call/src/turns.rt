//! Connections that make notebooks of what was sent, one after the other.
ghost use Rattle.std.specs.Prelude.{◌≡◌};

use js_http::{Method, Request};
use js_rest::ReadRequest;
use std::alloc::{AllocError, Global};
use std::sync::{Arc, Mutex, Wait};

/// The turn to make a notebook of the body of a PUT. One connection has it at a time, so that no more memory is used for that at
/// once than one body takes.
#[derive(Drop)]
pub struct Turns {
    turn: Arc<Mutex<()>, Global>,
}

impl Turns {
    /// Nobody has the turn.
    pub fn new(alloc: Global) -> Result<Turns, AllocError> {
        Ok(Turns {
            turn: Arc::new(alloc, Mutex::new(()))?,
        })
    }

    /// The same turn, for another connection.
    pub fn another(&self) -> Result<Turns, AllocError> {
        Ok(Turns {
            turn: Arc::try_clone(&self.turn)?,
        })
    }

    /// A request with what is made of it before the desk is asked. A PUT waits for the turn, and no other request does.
    pub fn read<R: Wait>(&self, rt: &R, alloc: Global, request: Request) -> ReadRequest
        ensures { result ≡ request }
    {
        match request.method {
            Method::Put => {
                let _turn = self.turn.lock(rt);
                ReadRequest::new(alloc, request)
            }
            _ => ReadRequest::new(alloc, request),
        }
    }
}
