//! Whose requests are answered: by the names of this machine that they call, and by the page that they come from.
ghost use Rattle.std.specs.Prelude.{◌≡◌, codes};
ghost use Rattle.std.specs.Option.{option_copied};
ghost use Rattle.js_http.specs.Headers.{values_of};
ghost use Rattle.js_http.specs.Origins as spec;

use crate::Headers;
use crate::framing::{are_digits, capped_number, is_number};
use crate::places::split_at_byte;

/// Whether it is a number from 0 to 255.
fn is_octet(text: &[u8]) -> bool
    ensures { result ≡ spec.is_octet text.now }
{
    is_number(text) && capped_number(text) <= 255
}

/// Whether it is two such numbers with a dot between.
fn are_two_octets(text: &[u8]) -> bool
    ensures { result ≡ spec.are_two_octets text.now }
{
    let (first, second) = split_at_byte(text, b'.');
    is_octet(first) && is_octet(second)
}

/// Whether it is three such numbers with dots between.
fn are_three_octets(text: &[u8]) -> bool
    ensures { result ≡ spec.are_three_octets text.now }
{
    let (first, rest) = split_at_byte(text, b'.');
    is_octet(first) && are_two_octets(rest)
}

/// Whether it is an address of four numbers whose first is 127.
fn is_loopback(name: &[u8]) -> bool
    ensures { result ≡ spec.is_loopback name.now }
{
    let (first, rest) = split_at_byte(name, b'.');
    first == b"127".as_slice() && are_three_octets(rest)
}

fn is_name_byte(byte: u8) -> bool
    ensures { result ≡ spec.is_name_byte byte }
{
    byte.is_ascii_alphanumeric() || byte == b'-' || byte == b'_'
}

/// Whether it is a name without a dot, or nothing.
fn is_short_name(name: &[u8]) -> bool
    ensures { result ≡ spec.is_short_name name.now }
{
    name.iter().all(|byte| is_name_byte(*byte))
}

/// Whether it ends in `.localhost`, in any case of letters.
fn is_in_localhost(name: &[u8]) -> bool
    ensures { result ≡ spec.is_in_localhost name.now }
{
    name[name.len().saturating_sub(10)..].eq_ignore_ascii_case(b".localhost")
}

fn is_own_name(name: &[u8]) -> bool
    ensures { result ≡ spec.is_own_name name.now }
{
    is_short_name(name) || is_loopback(name) || is_in_localhost(name)
}

/// Whether it is nothing, or a colon and a number.
fn is_port(text: &[u8]) -> bool
    ensures { result ≡ spec.is_port text.now }
{
    match text {
        [] => true,
        [byte, digits @ ..] => *byte == b':' && are_digits(digits),
    }
}

fn is_named_host(host: &[u8]) -> bool
    ensures { result ≡ spec.is_named_host host.now }
{
    let (name, port) = split_at_byte(host, b':');
    is_own_name(name) && are_digits(port)
}

fn is_bracketed_host(host: &[u8]) -> bool
    ensures { result ≡ spec.is_bracketed_host host.now }
{
    match host.strip_prefix(b"[::1]".as_slice()) {
        Some(port) => is_port(port),
        None => false,
    }
}

/// Whether a value of `Host` names this machine.
pub(crate) fn is_own_host(host: &[u8]) -> bool
    ensures { result ≡ spec.is_own_host host.now }
{
    is_named_host(host) || is_bracketed_host(host)
}

fn is_own_origin(host: Option<&[u8]>, origin: &[u8]) -> bool
    ensures { result ≡ spec.is_own_origin (option_copied host.entry) origin.now }
{
    match (host, origin.strip_prefix(b"http://".as_slice())) {
        (Some(host), Some(rest)) => rest == host,
        _ => false,
    }
}

/// Whether there is no `Host`, or they are all that one, which names this machine.
fn hosts_pass(host: Option<&[u8]>, headers: &Headers) -> bool
    ensures { result ≡ spec.passes spec.is_own_host (option_copied host.entry) (values_of (codes "host") headers.now) }
{
    match host {
        None => true,
        Some(host) => is_own_host(host) && headers.all_are(b"host", host),
    }
}

/// Whether there is no `Origin`, or they are all that one, which is of that host.
fn origins_pass(host: Option<&[u8]>, origin: Option<&[u8]>, headers: &Headers) -> bool
    ensures { result ≡ spec.passes (spec.is_own_origin (option_copied host.entry)) (option_copied origin.entry) (values_of (codes "origin") headers.now) }
{
    match origin {
        None => true,
        Some(origin) => is_own_origin(host, origin) && headers.all_are(b"origin", origin),
    }
}

/// Whether a request with these header lines is answered: each `Host` names this machine, in any case of letters and
/// with any port, and each `Origin` is `http://` and that host as it was sent. Either may be absent.
#[tactic(auto, unfolding(crate::specs::Origins::is_own))]
pub fn is_own(headers: &Headers) -> bool
    ensures { result ≡ spec.is_own headers.now }
{
    let host = headers.get(b"host");
    let origin = headers.get(b"origin");
    hosts_pass(host, headers) && origins_pass(host, origin, headers)
}
