//! The protocol v1.kernel.websocket.jupyter.org: its choice by a handshake, and its messages.

use jp_msg::{Bad, MAX_MESSAGE, Message, number_of, read_message, write_message};
use js_http::{Response, Text, read_request, write_response};
use js_ws::{deserialize_message, handshake};
use std::alloc::{AllocError, Global};
use std::process::Abort;
use std::test::Fail;

/// Lines that offer the protocol: alone, after another with no blank, before another, and by a second line.
const OFFERS: [&str; 4] = [
    "Sec-WebSocket-Protocol: v1.kernel.websocket.jupyter.org\r\n",
    "sec-websocket-protocol:chat,v1.kernel.websocket.jupyter.org\r\n",
    "Sec-WebSocket-Protocol: v1.kernel.websocket.jupyter.org ,\tchat\r\n",
    "Sec-WebSocket-Protocol: chat\r\nSec-WebSocket-Protocol: v1.kernel.websocket.jupyter.org\r\n",
];

/// Lines that offer none, or others: another case of a letter, a longer and a shorter name, and a line of another name.
const OTHERS: [&str; 6] = [
    "",
    "Sec-WebSocket-Protocol: \r\n",
    "Sec-WebSocket-Protocol: V1.kernel.websocket.jupyter.org\r\n",
    "Sec-WebSocket-Protocol: v1.kernel.websocket.jupyter.org.\r\n",
    "Sec-WebSocket-Protocol: v1.kernel.websocket.jupyter\r\n",
    "Sec-WebSocket-Extensions: v1.kernel.websocket.jupyter.org\r\n",
];

/// The name of the protocol that the answer to a request with these lines chooses, or nothing.
fn chosen_for<R: Abort>(rt: &R, alloc: Global, lines: &str) -> Result<String, Fail> {
    let head = format!(in alloc;
        "GET /api HTTP/1.1\r\nUpgrade: websocket\r\nConnection: Upgrade\r\nSec-WebSocket-Version: 13\r\nSec-WebSocket-Key: dGhlIHNhbXBsZSBub25jZQ==\r\n{}\r\n",
        lines
    )?;
    let mut bytes = head.as_str().as_bytes();
    let Ok(request) = read_request(alloc, &mut bytes) else {
        panic!(rt; "the head is one of a request");
    };
    match handshake(alloc, &request) {
        Ok(
            Response::SwitchingProtocols {
                accept: _,
                protocol,
            },
        ) => match protocol {
            Some(name) => Ok(name.into_string()),
            None => Ok(String::new(alloc)),
        },
        _ => panic!(rt; "the answer switches protocols"),
    }
}

#[test]
fn protocols_that_are_offered(rt: HostRuntime) -> Result<(), Fail> {
    for lines in OFFERS {
        let name = chosen_for(&rt, rt.alloc(), lines)?;
        assert_eq!(rt; name.as_str(), "v1.kernel.websocket.jupyter.org", "{lines}");
    }
    for lines in OTHERS {
        let name = chosen_for(&rt, rt.alloc(), lines)?;
        assert_eq!(rt; name.as_str(), "", "{lines}");
    }
    Ok(())
}

/// The bytes of a switch that chooses a protocol.
#[test]
fn a_switch_with_a_protocol(rt: HostRuntime) -> Result<(), Fail> {
    let accept = Text::from(String::from_str(rt.alloc(), "s3pPLMBiTxaQ9kYGzzhZRbK+xOo=")?);
    let name = Text::from(String::from_str(rt.alloc(), "v1.kernel.websocket.jupyter.org")?);
    let response = Response::SwitchingProtocols {
        accept,
        protocol: Some(name),
    };
    let mut written = Vec::new(rt.alloc());
    write_response(&mut written, &response)?;
    let wanted =
        "HTTP/1.1 101 Switching Protocols\r\nUpgrade: websocket\r\nConnection: Upgrade\r\nSec-WebSocket-Accept: s3pPLMBiTxaQ9kYGzzhZRbK+xOo=\r\nSec-WebSocket-Protocol: v1.kernel.websocket.jupyter.org\r\n\r\n";
    assert_eq!(rt; written.as_slice(), wanted.as_bytes());
    Ok(())
}

/// A kernel_info request, made by serialize_msg_to_ws_v1 of Jupyter Server 1.23.3.
const ASKS: &[u8] =
    b"\x06\x00\x00\x00\x00\x00\x00\x008\x00\x00\x00\x00\x00\x00\x00=\x00\x00\x00\x00\x00\x00\x00|\x00\x00\x00\x00\x00\x00\x00~\x00\x00\x00\x00\x00\x00\x00\x80\x00\x00\x00\x00\x00\x00\x00\x82\x00\x00\x00\x00\x00\x00\x00shell{\"msg_id\":\"m1\",\"session\":\"s1\",\"msg_type\":\"kernel_info_request\"}{}{}{}";

/// Its parts: channel, header, parent header, metadata and content.
const PARTS: [&str; 5] = [
    "shell",
    "{\"msg_id\":\"m1\",\"session\":\"s1\",\"msg_type\":\"kernel_info_request\"}",
    "{}",
    "{}",
    "{}",
];

/// Requests: the channel, the type and the content.
const ROWS: [(&str, &str, &str); 12] = [
    (
        "shell",
        "execute_request",
        "{\"code\":\"MODULE \u{e9}; END.\",\"silent\":true,\"user_expressions\":{\"a\":\"1\"}}",
    ),
    ("shell", "kernel_info_request", "{}"),
    ("shell", "is_complete_request", "{\"code\":\"A\"}"),
    (
        "shell",
        "complete_request",
        "{\"code\":\"A\",\"cursor_pos\":1}",
    ),
    ("shell", "inspect_request", "{}"),
    ("shell", "history_request", "{}"),
    ("shell", "comm_info_request", "{}"),
    ("shell", "comm_open", "{\"comm_id\":\"a\"}"),
    ("control", "kernel_info_request", "{}"),
    ("control", "interrupt_request", "{}"),
    ("control", "shutdown_request", "{\"restart\":true}"),
    ("stdin", "input_reply", "{\"value\":\"12\"}"),
];

/// Parts as a binary message, by hand.
fn binary_of(alloc: Global, parts: &[&str]) -> Result<Vec<u8>, AllocError> {
    let mut bytes = Vec::new(alloc);
    let count = parts.len().saturating_add(1);
    bytes.extend_from_slice(&count.to_le_bytes())?;
    let mut place = count.saturating_add(1).saturating_mul(8);
    bytes.extend_from_slice(&place.to_le_bytes())?;
    for part in parts {
        place = place.saturating_add(part.len());
        bytes.extend_from_slice(&place.to_le_bytes())?;
    }
    for part in parts {
        bytes.extend_from_slice(part.as_bytes())?;
    }
    Ok(bytes)
}

/// What reading a binary message came to, as a number: 0 for a message, the number of its fault, 6 for lack of memory.
fn outcome(read: &Result<Message, Bad>) -> u8 {
    match read {
        Ok(_) => 0,
        Err(Bad::Fault(fault)) => number_of(*fault),
        Err(Bad::Memory) => 6,
    }
}

/// A binary message of a request.
fn binary_request(
    alloc: Global,
    channel: &str,
    header: &str,
    content: &str,
) -> Result<Vec<u8>, AllocError> {
    let parts = [
        channel,
        header,
        "{\"msg_id\":\"p\"}",
        "{\"cellId\":\"c\"}",
        content,
    ];
    binary_of(alloc, &parts)
}

/// A request that was read in each form, written again.
fn written_again(alloc: Global, bytes: &[u8], text: &str) -> Result<(String, String), Fail> {
    let read = deserialize_message(alloc, bytes)?;
    let wanted = read_message(alloc, text)?;
    let first = write_message(alloc, &read)?;
    let second = write_message(alloc, &wanted)?;
    Ok((first, second))
}

/// A request in both forms, read and written again.
fn in_both_forms(
    alloc: Global,
    channel: &str,
    msg_type: &str,
    content: &str,
) -> Result<(String, String), Fail> {
    let header = format!(in alloc;
        "{{\"msg_id\":\"m\",\"session\":\"s\",\"username\":\"u\",\"msg_type\":\"{}\"}}",
        msg_type
    )?;
    let bytes = binary_request(alloc, channel, header.as_str(), content)?;
    let text = format!(in alloc;
        "{{\"buffers\":[],\"channel\":\"{}\",\"header\":{},\"parent_header\":{{\"msg_id\":\"p\"}},\"metadata\":{{\"cellId\":\"c\"}},\"content\":{}}}",
        channel, header, content
    )?;
    written_again(alloc, bytes.as_slice(), text.as_str())
}

/// Each request is the same message in both forms.
#[test]
fn requests_in_both_forms(rt: HostRuntime) -> Result<(), Fail> {
    let alloc = rt.alloc();
    assert_eq!(rt; binary_of(alloc, &PARTS)?.as_slice(), ASKS);
    for (channel, msg_type, content) in ROWS {
        let (read, wanted) = in_both_forms(alloc, channel, msg_type, content)?;
        assert_eq!(rt; read.as_str(), wanted.as_str(), "{msg_type}");
    }
    Ok(())
}

/// Each offset and their count, one more and one less; and the message cut at every byte, and one byte longer.
#[test]
fn offsets_that_are_wrong(rt: HostRuntime) -> Result<(), Fail> {
    let alloc = rt.alloc();
    for place in 0..7usize {
        for change in [1u8, 255u8] {
            let mut bytes = Vec::from_slice(alloc, ASKS)?;
            if let Some(byte) = bytes.get_mut(8 * place) {
                *byte = byte.wrapping_add(change);
            }
            let read = deserialize_message(alloc, bytes.as_slice());
            assert_eq!(rt; outcome(&read), 1, "{place} {change}");
        }
    }
    for cut in 0..ASKS.len() {
        let read = deserialize_message(alloc, &ASKS[..cut]);
        assert_eq!(rt; outcome(&read), 1, "{cut}");
    }
    let mut longer = Vec::from_slice(alloc, ASKS)?;
    longer.push(b' ')?;
    assert_eq!(rt; outcome(&deserialize_message(alloc, longer.as_slice())), 1);
    Ok(())
}

/// The fault of a message with the parts of `ASKS`, one of which is replaced.
fn fault_with(alloc: Global, place: usize, part: &str) -> Result<u8, AllocError> {
    let mut parts = PARTS;
    if let Some(it) = parts.get_mut(place) {
        *it = part;
    }
    let bytes = binary_of(alloc, &parts)?;
    Ok(outcome(&deserialize_message(alloc, bytes.as_slice())))
}

/// A part is one JSON value by itself; buffers, other channels, fractions and missing fields are refused.
#[test]
fn parts_that_are_refused(rt: HostRuntime) -> Result<(), Fail> {
    let alloc = rt.alloc();
    assert_eq!(rt; fault_with(alloc, 4, "{},\"channel\":\"stdin\"")?, 1);
    assert_eq!(rt; fault_with(alloc, 4, "{}{}")?, 1);
    assert_eq!(rt; fault_with(alloc, 3, "")?, 1);
    assert_eq!(rt;
        fault_with(alloc, 1, "{\"msg_id\":\"m1\",\"session\":\"s1\"}")?,
        2
    );
    assert_eq!(rt; fault_with(alloc, 2, "[]")?, 3);
    assert_eq!(rt; fault_with(alloc, 0, "iopub")?, 3);
    assert_eq!(rt; fault_with(alloc, 0, "")?, 3);
    assert_eq!(rt; fault_with(alloc, 3, "{\"a\":1.5}")?, 4);
    let buffers = ["shell", PARTS[1], "{}", "{}", "{}", ""];
    let bytes = binary_of(alloc, &buffers)?;
    assert_eq!(rt; outcome(&deserialize_message(alloc, bytes.as_slice())), 1);
    Ok(())
}

/// A message with a cell of so many letters.
fn cell_of(alloc: Global, count: usize) -> Result<Vec<u8>, Fail> {
    let letters = vec![in alloc; b'a'; count]?;
    let code = std::str::from_utf8(letters.as_slice())?;
    let content = format!(in alloc; "{{\"code\":\"{}\"}}", code)?;
    let parts = [
        "shell",
        "{\"msg_id\":\"m1\",\"session\":\"s1\",\"msg_type\":\"execute_request\"}",
        "{}",
        "{}",
        content.as_str(),
    ];
    Ok(binary_of(alloc, &parts)?)
}

/// The limit of a message is one of the whole binary message.
#[test]
fn the_longest_message(rt: HostRuntime) -> Result<(), Fail> {
    let alloc = rt.alloc();
    let empty = cell_of(alloc, 0)?;
    let count = MAX_MESSAGE.saturating_sub(empty.len());
    let longest = cell_of(alloc, count)?;
    assert_eq!(rt; longest.len(), MAX_MESSAGE);
    assert_eq!(rt; outcome(&deserialize_message(alloc, longest.as_slice())), 0);
    let longer = cell_of(alloc, count.saturating_add(1))?;
    assert_eq!(rt; outcome(&deserialize_message(alloc, longer.as_slice())), 5);
    Ok(())
}
