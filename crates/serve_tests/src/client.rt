//! A client's connections: requests over HTTP, and frames over a WebSocket (RFC 6455), masked by zeros.

use std::alloc::Global;
use std::io;
use std::io::{ErrorKind, Read, Write};
use std::net::{Net, SocketAddr, TcpStream};
use std::time::Duration;

/// How many seconds a read waits at most.
const PATIENCE: u64 = 10;

/// What stands for an answer or a message where the server closed the connection and sent nothing.
pub const NOTHING: &str = "nothing";

/// What stands for a message where the server says by a Close frame that the kernel is gone.
pub const GONE: &str = "gone";

/// What comes next over a WebSocket: a text of so many bytes, or a Close frame of the status 1001, or the end.
enum Incoming {
    Text(usize),
    Gone,
    End,
}

/// A connection to the server.
pub fn connect<R>(rt: &R, address: SocketAddr) -> io::Result<TcpStream>
where
    R: Net<Stream = TcpStream>,
{
    let stream = TcpStream::connect(rt, address)?;
    stream.set_read_timeout(Some(Duration::from_secs(PATIENCE)))?;
    stream.set_nodelay(true)?;
    Ok(stream)
}

/// Sends a text one byte after the other.
pub fn drip(stream: &mut TcpStream, text: &str) -> io::Result<()> {
    for byte in text.bytes() {
        stream.write_all(&[byte])?;
    }
    Ok(())
}

/// What comes until the server closes the connection.
pub fn rest(alloc: Global, stream: &mut TcpStream) -> io::Result<String> {
    let mut text = String::new(alloc);
    stream.read_to_string(&mut text)?;
    if text.as_str().is_empty() {
        text.push_str(NOTHING)?;
    }
    Ok(text)
}

/// The head of an answer.
pub fn head(alloc: Global, stream: &mut TcpStream) -> io::Result<String> {
    let mut head = String::new(alloc);
    for _ in 0..1_000 {
        let mut byte = [0u8; 1];
        stream.read_exact(&mut byte)?;
        head.push(char::from(byte[0]))?;
        if head.as_str().ends_with("\r\n\r\n") {
            break;
        }
    }
    Ok(head)
}

/// Adds a frame of a text of 126 to 65,535 bytes.
pub fn add_frame(frames: &mut Vec<u8>, text: &str) -> io::Result<()> {
    let Ok(len) = u16::try_from(text.len()) else {
        return Err(ErrorKind::InvalidInput.into());
    };
    let size = len.to_be_bytes();
    frames.extend_from_slice(&[0x81, 0xfe, size[0], size[1], 0, 0, 0, 0])?;
    frames.extend_from_slice(text.as_bytes())?;
    Ok(())
}

/// What comes next.
fn next(stream: &mut TcpStream) -> io::Result<Incoming> {
    let mut kind = [0u8; 1];
    if stream.read(&mut kind)? == 0 {
        return Ok(Incoming::End);
    }
    let mut short = [0u8; 1];
    stream.read_exact(&mut short)?;
    if kind[0] == 0x88 {
        return gone(stream, short[0]);
    }
    if kind[0] != 0x81 || short[0] > 126 {
        return Err(ErrorKind::InvalidData.into());
    }
    if short[0] < 126 {
        return Ok(Incoming::Text(usize::from(short[0])));
    }
    let mut long = [0u8; 2];
    stream.read_exact(&mut long)?;
    Ok(Incoming::Text(usize::from(u16::from_be_bytes(long))))
}

/// The rest of a Close frame, which has to have the status 1001.
fn gone(stream: &mut TcpStream, len: u8) -> io::Result<Incoming> {
    let mut status = [0u8; 2];
    stream.read_exact(&mut status)?;
    if len == 2 && u16::from_be_bytes(status) == 1001 {
        Ok(Incoming::Gone)
    } else {
        Err(ErrorKind::InvalidData.into())
    }
}

/// The next message.
pub fn message(alloc: Global, stream: &mut TcpStream) -> io::Result<String> {
    let len = match next(stream)? {
        Incoming::Text(len) => len,
        Incoming::Gone => return Ok(String::from_str(alloc, GONE)?),
        Incoming::End => return Ok(String::from_str(alloc, NOTHING)?),
    };
    let mut bytes = Vec::new(alloc);
    bytes.resize(len, 0)?;
    stream.read_exact(bytes.as_mut_slice())?;
    match String::from_utf8(bytes) {
        Ok(text) => Ok(text),
        Err(_) => Err(ErrorKind::InvalidData.into()),
    }
}
