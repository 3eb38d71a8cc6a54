//! What becomes of the frames that a frontend sends.

use crate::scene::play;
use crate::socket::{End, Socket};
use js_ws::Protocol;
use std::alloc::{AllocError, Global};
use std::sync::Wait;
use std::test::Fail;
use test_language::TestLanguage;

/// A text frame of a kernel_info request, masked by the key of RFC 6455, section 5.7.
pub(crate) const ASKS: &[u8] =
    b"\x81\xd77\xfa!=L\xd8IXV\x9eDO\x15\xc0Z\x1fZ\x89Fb^\x9e\x03\x07\x15\x97\x10\x1f\x1b\xd8RXD\x89HRY\xd8\x1b\x1fD\xcb\x03\x11\x15\x97RZh\x8eXMR\xd8\x1b\x1f\x5c\x9fSSR\x96~TY\x9cNbE\x9fPHR\x89U\x1fJ\xd6\x03^X\x94UXY\x8e\x03\x07L\x87\x5c";

/// A frame of the same request as a binary message, made by serialize_msg_to_ws_v1 of Jupyter Server 1.23.3, masked by the same key.
/// Its length takes two bytes more.
const ASKS_V1: &[u8] =
    b"\x82\xfe\x00\x827\xfa!=1\xfa!=7\xfa!=\x0f\xfa!=7\xfa!=\x0a\xfa!=7\xfa!=K\xfa!=7\xfa!=I\xfa!=7\xfa!=\xb7\xfa!=7\xfa!=\xb5\xfa!=7\xfa!=D\x92DQ[\x81\x03PD\x9d~TS\xd8\x1b\x1fZ\xcb\x03\x11\x15\x89DND\x93NS\x15\xc0\x03N\x06\xd8\x0d\x1fZ\x89FbC\x83QX\x15\xc0\x03VR\x88OX[\xa5HSQ\x95~OR\x8bTXD\x8e\x03@L\x87Z@L\x87";

/// The text "Hello" of RFC 6455, section 5.7, masked; and the same bytes as a binary message, a ping and a pong.
const NO_MESSAGES: &[u8] =
    b"\x81\x85\x37\xfa\x21\x3d\x7f\x9f\x4d\x51\x58\x82\x85\x37\xfa\x21\x3d\x7f\x9f\x4d\x51\x58\x89\x85\x37\xfa\x21\x3d\x7f\x9f\x4d\x51\x58\x8a\x85\x37\xfa\x21\x3d\x7f\x9f\x4d\x51\x58";

const CLOSE: &[u8] = b"\x88\x80\x00\x00\x00\x00";

const PING: &[u8] = b"\x89\x80\x00\x00\x00\x00";

/// Frames, what the stream gives after them, and what comes of steps.
struct Play {
    protocol: Protocol,
    frames: &'static [u8],
    end: End,
    is_full: bool,
    steps: &'static str,
    wanted: &'static str,
}

const PLAYS: [Play; 8] = [
    // No message of Jupyter is dropped as an arrival; then the stream ends.
    Play {
        protocol: Protocol::Default,
        frames: NO_MESSAGES,
        end: End::Ends,
        is_full: false,
        steps: "tttttt",
        wanted: "ooooccJ1L2",
    },
    // A close is answered, and the read after it is a fault.
    Play {
        protocol: Protocol::Default,
        frames: CLOSE,
        end: End::Waits,
        is_full: false,
        steps: "tt",
        wanted: "ocJ1L2",
    },
    // A ping is answered by the next read, and where that answer can't be written, the read is a fault.
    Play {
        protocol: Protocol::Default,
        frames: PING,
        end: End::TakesNothing,
        is_full: false,
        steps: "ttt",
        wanted: "occJ1L2",
    },
    // A ping whose answer is written.
    Play {
        protocol: Protocol::Default,
        frames: PING,
        end: End::Waits,
        is_full: false,
        steps: "ttt",
        wanted: "oqqJ1",
    },
    // Where the inbox is full, the channel holds its arrival and reads nothing. So its leave comes after each of them, once
    // there is room.
    Play {
        protocol: Protocol::Default,
        frames: ASKS,
        end: End::Ends,
        is_full: true,
        steps: "tttptptpt",
        wanted: "wwwwwcJ1S2L3",
    },
    // The same request in the other protocol.
    Play {
        protocol: Protocol::V1,
        frames: ASKS_V1,
        end: End::Waits,
        is_full: false,
        steps: "tt",
        wanted: "oqJ1S2",
    },
    // A text is dropped in that protocol, and a binary message in the default one.
    Play {
        protocol: Protocol::V1,
        frames: ASKS,
        end: End::Waits,
        is_full: false,
        steps: "tt",
        wanted: "oqJ1",
    },
    Play {
        protocol: Protocol::Default,
        frames: ASKS_V1,
        end: End::Waits,
        is_full: false,
        steps: "tt",
        wanted: "oqJ1",
    },
];

/// Plays whose frames come at once.
#[test]
fn frames_that_come_at_once(rt: HostRuntime) -> Result<(), Fail> {
    for (place, row) in PLAYS.iter().enumerate() {
        let socket = Socket::new(row.frames, row.end);
        let text = play::<_, _, TestLanguage>(
            &rt,
            rt.alloc(),
            row.protocol,
            socket,
            row.is_full,
            row.steps,
        )?;
        assert_eq!(rt; text.as_str(), row.wanted, "{place}");
    }
    Ok(())
}

const FRAMES: [(Protocol, &[u8]); 2] = [(Protocol::Default, ASKS), (Protocol::V1, ASKS_V1)];

/// What comes of turns over a stream in that protocol.
fn played<R: Wait>(
    rt: &R,
    alloc: Global,
    protocol: Protocol,
    socket: Socket<'_>,
    steps: &str,
) -> Result<String, AllocError> {
    play::<_, _, TestLanguage>(rt, alloc, protocol, socket, false, steps)
}

/// One message is one arrival, wherever its frame is cut by the stream's time limit. A frame that the stream's end cuts is no
/// arrival.
#[test]
fn a_frame_cut_at_every_byte(rt: HostRuntime) -> Result<(), Fail> {
    for (protocol, frame) in FRAMES {
        for cut in 0..frame.len() {
            let text = played(&rt, rt.alloc(), protocol, Socket::cut(frame, cut), "ttt")?;
            assert_eq!(rt; text.as_str(), "qoqJ1S2", "{cut}");
            let socket = Socket::new(&frame[..cut], End::Ends);
            let text = played(&rt, rt.alloc(), protocol, socket, "tt")?;
            assert_eq!(rt; text.as_str(), "ccJ1L2", "{cut}");
        }
    }
    Ok(())
}
