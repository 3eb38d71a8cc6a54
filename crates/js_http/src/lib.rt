//! HTTP/1.0 and 1.1 as a server needs it (RFC 9110 and RFC 9112): one request from the bytes of a stream, however
//! they are cut, and one response to bytes.
#![tactic(auto)]

mod expecting;
mod framing;
mod head;
mod header;
mod lookup;
mod method;
mod origin;
mod places;
mod read;
mod refusal;
mod request;
mod response;
mod serve;
mod target;
mod values;
mod watch;
mod write;

pub use framing::MAX_BODY_LEN;
pub use head::{MAX_HEAD_LEN, MAX_HEADERS};
pub use header::{Header, Headers};
pub use method::Method;
pub use origin::is_own;
pub use refusal::HttpRefusal;
pub use request::{Request, one_request_law, read_request};
pub use response::{ErrorStatus, Response};
pub use serve::{Served, Stream, serve_one};
pub use target::{Segments, path_segments, query_value};
pub use values::{Bytes, Text};
pub use write::write_response;
