//! What the kernel writes down.

use crate::arrival::Arrival;
use crate::written::Written;
use jk_language::{Refusal, Trap};
use jp_msg::Completeness;
use json_form::Text;

/// Why a cell was stopped.
#[derive(Clone, Copy, Debug, PartialEq, Eq)]
pub enum Cause {
    Memory,
    Interrupted,
    /// The kernel is shut down, or starts again.
    Restarted,
}

/// How a cell ended.
#[derive(Drop)]
pub enum Ending {
    Completed,
    Trapped(Trap),
    /// It did not run: the text was refused by compiling, or its commands do not link.
    Refused(Refusal),
}

/// What the kernel did, with what is shown of it.
#[derive(Drop)]
pub enum Kind {
    Join,
    Leave,
    Begin {
        count: u64,
    },
    /// The turns so far, and the output since the last flush.
    Flush {
        turns: u64,
        text: Written,
    },
    /// The cell asks its seat for a line.
    Ask,
    /// A line for the cell that runs, or that there is none to be had.
    Line {
        text: Option<Text>,
    },
    End {
        ending: Ending,
        count: u64,
    },
    Stop {
        turns: u64,
        cause: Cause,
        count: u64,
    },
    Refuse {
        count: u64,
    },
    Abort,
    /// A request that waits and is no cell is answered; `is_complete` with a status.
    Answer {
        status: Option<Completeness>,
    },
    Interrupt,
    /// A `kernel_info` request on the control channel is answered.
    KernelInfo,
    /// The kernel starts again, or has ended.
    Restart {
        restart: bool,
    },
}

/// A mark of the script, for the request at a place of the log.
#[derive(Drop)]
pub struct Mark {
    pub at: usize,
    pub kind: Kind,
}

/// A member of the log.
#[derive(Drop)]
pub enum Item {
    Took(Arrival),
    Marked(Mark),
}
