//! What the server allows its clients, and what it does where it has no thread for them.

use crate::client::NOTHING;
use crate::crew::Manner;
use crate::rows::{ITS_ID, KERNEL, SCREEN};
use crate::steps::{Step, play_in, play_to_a_stop};
use js_call::Limits;
use std::test::Fail;

/// A client must go on within a third of a second.
const STRICT: Manner = Manner {
    limits: Limits {
        request: 300,
        write: 300,
        connections: 256,
    },
    parses: true,
};

/// There is room for two.
const NARROW: Manner = Manner {
    limits: Limits {
        request: 30_000,
        write: 30_000,
        connections: 2,
    },
    parses: true,
};

/// There is no thread for a parser.
const POOR: Manner = Manner {
    limits: Limits {
        request: 30_000,
        write: 30_000,
        connections: 256,
    },
    parses: false,
};

/// The first screen reads nothing of what the second one runs.
const STOPPED: &[Step] = &[
    KERNEL,
    ITS_ID,
    SCREEN,
    SCREEN,
    Step::Floods(1, 30),
    Step::Waits(
        "GET /api/kernels/@",
        "HTTP/1.1 200 OK\r\n*{\"connections\":1,",
    ),
    Step::Floods(1, 1),
];

/// The first screen reads nothing of what the second one runs. The kernel is deleted, and the server told to stop.
const DELETED: &[Step] = &[
    KERNEL,
    ITS_ID,
    SCREEN,
    SCREEN,
    Step::Floods(1, 30),
    Step::Asks("DELETE /api/kernels/@", "", "HTTP/1.1 204 No Content\r\n"),
    Step::Asks("POST /api/shutdown", "", "HTTP/1.1 200 OK\r\n"),
];

/// What comes of the request takes longer than a third of a second, but no pause of it does.
const SLOW: &[Step] = &[
    Step::Begins("GET /api HTTP/1.1\r\n"),
    Step::Drips(0, "Host: a\r\nAccept: text/html\r\n\r\n", NOTHING),
    Step::Asks("GET /api", "", "HTTP/1.1 200 OK\r\n"),
];

const CROWDED: &[Step] = &[
    Step::Begins("G"),
    Step::Begins("G"),
    Step::Asks("GET /api", "", "HTTP/1.1 503 Service Unavailable\r\n"),
    Step::Leaves(0),
    Step::Waits("GET /api", "HTTP/1.1 200 OK\r\n"),
];

const UNPARSED: &[Step] = &[
    Step::Asks(
        "POST /api/kernels",
        "",
        "HTTP/1.1 500 Internal Server Error\r\n",
    ),
    Step::Asks("GET /api/kernels", "", "HTTP/1.1 200 OK\r\n*\r\n\r\n[]"),
];

/// The body is longer than any that is read.
const TOO_LONG: &[Step] = &[Step::Pours(
    "PUT /api/contents/a HTTP/1.1\r\nContent-Length: 18000000\r\n\r\n",
    300,
    "HTTP/1.1 413 Content Too Large\r\n",
)];

/// A screen that takes nothing is cut off, and its seat comes back.
#[test]
fn a_screen_that_takes_nothing(rt: HostRuntime) -> Result<(), Fail> {
    play_in(rt, rt.alloc(), STRICT, STOPPED)
}

/// A deleted kernel does not wait for a screen that takes nothing: where the places of a kernel do not come back, a server that was
/// told to stop waits five seconds for them.
#[test]
fn a_deleted_kernel(rt: HostRuntime) -> Result<(), Fail> {
    play_to_a_stop(rt, rt.alloc(), DELETED, 4_000)
}

/// A request that comes too slowly is dropped, however often a byte of it comes.
#[test]
fn a_slow_request(rt: HostRuntime) -> Result<(), Fail> {
    play_in(rt, rt.alloc(), STRICT, SLOW)
}

/// Where as many connections have a thread as may, the next is told so, until one is gone.
#[test]
fn a_crowd(rt: HostRuntime) -> Result<(), Fail> {
    play_in(rt, rt.alloc(), NARROW, CROWDED)
}

/// A kernel whose parsers find no thread is refused, and is gone.
#[test]
fn no_thread_for_a_parser(rt: HostRuntime) -> Result<(), Fail> {
    play_in(rt, rt.alloc(), POOR, UNPARSED)
}

/// A request that is refused while it is still sent has its answer read.
#[test]
fn a_refusal_before_the_end(rt: HostRuntime) -> Result<(), Fail> {
    play_in(rt, rt.alloc(), Manner::usual(), TOO_LONG)
}
