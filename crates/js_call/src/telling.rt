//! How threads tell the desk their calls.

use crate::call::Call;
use crossbeam_channel::{SendError, Sender};
use jk_language::Language;
use std::sync::Wait;
use std::thread;
use std::time::{Clock, Duration};

/// How many milliseconds pass before a call is told again that found no memory.
const PAUSE: u64 = 10;

/// Tells the desk a call. Where memory is refused the call is kept, and told again. It says whether the desk has it: there is no
/// desk otherwise.
pub fn tell<L: Language, R: Wait + Clock>(rt: &R, calls: &Sender<Call<L>>, call: Call<L>) -> bool {
    let mut call = call;
    for _ in rt.forever() {
        match calls.send(rt, call) {
            Ok(()) => return true,
            Err(SendError::Disconnected(_)) => return false,
            Err(SendError::OutOfMemory(back)) => {
                call = back;
                thread::sleep(rt, Duration::from_millis(PAUSE));
            }
        }
    }
    unreachable!()
}
