//! What a request is about, as far as it has to wait for kernels that are ending, or for recorders.

use js_contents::place_of;
use js_http::{Bytes, Method, Request, Segments, path_segments};
use json_form::Text;
use std::alloc::Global;

/// What a request is about.
#[derive(Drop)]
pub(crate) enum Concern {
    /// Neither a kernel nor a session nor a file.
    Other,
    /// The kernel of the identifier in its fourth segment.
    Kernel(Segments),
    /// The session of the identifier in its fourth segment.
    Session(Segments),
    /// What stands at a path, in whichever folder.
    File(Text),
    /// Files or sessions at paths that are told in its body.
    Paths,
}

fn is_word(segments: &[Bytes], place: usize, word: &str) -> bool {
    match segments.get(place) {
        Some(bytes) => bytes.as_slice() == word.as_bytes(),
        None => false,
    }
}

/// What a request is about.
pub(crate) fn concern_of(alloc: Global, request: &Request) -> Concern {
    let Ok(segments) = path_segments(alloc, request.path()) else {
        return Concern::Other;
    };
    let parts = segments.as_slice();
    if !is_word(parts, 1, "api") {
        return Concern::Other;
    }
    if is_word(parts, 2, "contents") {
        return contents_concern(alloc, request.method, parts);
    }
    if is_word(parts, 2, "kernels") && parts.len() > 3 {
        return Concern::Kernel(segments);
    }
    if is_word(parts, 2, "sessions") && parts.len() > 3 {
        return Concern::Session(segments);
    }
    if is_word(parts, 2, "sessions") && matches!(request.method, Method::Post) {
        return Concern::Paths;
    }
    Concern::Other
}

fn contents_concern(alloc: Global, method: Method, segments: &[Bytes]) -> Concern {
    match method {
        Method::Get | Method::Put | Method::Delete => match place_of(alloc, segments) {
            Ok(place) => Concern::File(place.path),
            Err(_) => Concern::Other,
        },
        Method::Post | Method::Patch => Concern::Paths,
        Method::Other => Concern::Other,
    }
}

/// The identifier in the fourth segment.
pub(crate) fn id_in(segments: &Segments) -> &[u8] {
    match segments.as_slice().get(3) {
        Some(bytes) => bytes.as_slice(),
        None => &[],
    }
}

/// Whether a file is what stands at a path, or in a folder there.
pub(crate) fn is_within(file: &str, path: &str) -> bool {
    if path.is_empty() || file == path {
        return true;
    }
    file.starts_with(path) && file.as_bytes().get(path.len()) == Some(&b'/')
}
