//! Paths: which texts are some, and where a path stands.
ghost use Rattle.std.specs.Prelude.{◌≡◌, ◌≤◌, ◌&&◌, not, nat_le, length};
ghost use Rattle.std.specs.List.{list_all, list_any, position_or_len};
ghost use Rattle.std.specs.Option.{option_copied};
ghost use Rattle.js_shelf.specs.Paths as spec;
ghost use Rattle.js_shelf.specs.Places as places;
ghost use Rattle.js_shelf.specs.Shelves as shelves;

/// How many segments a path has at most.
pub const MAX_SEGMENTS: usize = 16;

/// How many bytes a segment has at most.
pub const MAX_SEGMENT_LEN: usize = 255;

fn is_plain(byte: u8) -> bool
    ensures { result ≡ spec.is_plain byte }
{
    byte >= b' ' && byte != b'\\'
}

fn are_plain(segment: &[u8]) -> bool
    ensures { result ≡ list_all spec.is_plain segment.now }
{
    segment.iter().all(|&byte| is_plain(byte))
}

fn is_segment(segment: &[u8]) -> bool
    ensures { result ≡ spec.is_segment segment.now }
{
    !segment.is_empty()
        && segment.len() <= MAX_SEGMENT_LEN
        && are_plain(segment)
        && segment != b".".as_slice()
        && segment != b"..".as_slice()
}

/// The place of the first slash, or the length.
fn slash_place(path: &[u8]) -> usize
    ensures first { result ≡ position_or_len spec.is_slash path.now }
    ensures within { result ≤ length path.now }
{
    match path.iter().position(|&byte| byte == b'/') {
        Some(place) => place,
        None => path.len(),
    }
}

/// Whether the bytes are at most 16 segments with slashes between them.
fn are_segments(path: &[u8]) -> bool
    ensures { result ≡ (nat_le (length (spec.segments path.now)) 16 && list_all spec.is_segment (spec.segments path.now)) }
{
    let mut count = 0;
    let mut rest = path;
    'segments: loop {
        let (segment, behind) = rest.split_at(slash_place(rest));
        if count == MAX_SEGMENTS {
            return false;
        }
        if !is_segment(segment) {
            return false;
        }
        count += 1;
        if behind.is_empty() {
            return true;
        }
        rest = &behind[1..];
    }
}

/// Whether a text is a path, the root too.
pub fn is_path(path: &str) -> bool
    ensures { result ≡ spec.is_path path.now }
{
    path.is_empty() || are_segments(path.as_bytes())
}

/// Whether the bytes are one segment of a path, so without a slash.
pub fn is_step(bytes: &[u8]) -> bool
    ensures { result ≡ places.is_step bytes.now }
{
    is_segment(bytes) && !has_slash(bytes)
}

/// Whether a text is a path other than the root.
pub fn is_below_root(path: &str) -> bool
    ensures { result ≡ (spec.is_path path.now && not (spec.is_root path.now)) }
{
    is_path(path) && !path.is_empty()
}

/// The path of the folder that a path stands in: what stands before its last slash, or the root.
pub(crate) fn parent_of(path: &str) -> &str
    ensures { result.now ≡ spec.parent_of path.now }
{
    match path.rfind('/') {
        Some(slash) => &path[..slash],
        None => "",
    }
}

/// What follows a front of a text.
fn behind<'p>(front: &str, text: &'p str) -> Option<&'p str>
    ensures { option_copied result ≡ spec.behind front.now text.now }
{
    text.strip_prefix(front)
}

/// Whether the text is nothing, or a slash and more.
fn goes_down(text: &str) -> bool
    ensures { result ≡ spec.goes_down text.now }
{
    match text.as_bytes() {
        [] => true,
        [first, ..] => *first == b'/',
    }
}

/// What follows the path `top` in a path that is `top` or stands below it: nothing, or a slash and more.
pub(crate) fn following<'p>(top: &str, path: &'p str) -> Option<&'p str>
    ensures { option_copied result ≡ spec.following top.now path.now }
{
    match behind(top, path) {
        Some(rest) if goes_down(rest) => Some(rest),
        _ => None,
    }
}

fn has_slash(text: &[u8]) -> bool
    ensures { result ≡ list_any spec.is_slash text.now }
{
    text.iter().any(|&byte| byte == b'/')
}

/// Whether the text is a name: not empty, and with no slash.
fn is_name(text: &str) -> bool
    ensures { result ≡ spec.is_name text.now }
{
    !text.is_empty() && !has_slash(text.as_bytes())
}

/// What follows the folder and a slash.
fn below<'p>(folder: &str, path: &'p str) -> Option<&'p str>
    ensures { option_copied result ≡ spec.after_slash (spec.behind folder.now path.now) }
{
    match behind(folder, path) {
        Some(rest) => behind("/", rest),
        None => None,
    }
}

/// The name of a path that stands directly in that folder.
pub(crate) fn name_in<'p>(folder: &str, path: &'p str) -> Option<&'p str>
    ensures { option_copied result ≡ spec.name_in folder.now path.now }
{
    let name = if folder.is_empty() {
        Some(path)
    } else {
        below(folder, path)
    };
    match name {
        Some(name) if is_name(name) => Some(name),
        _ => None,
    }
}

/// Whether `to` stands below `from`.
pub fn is_below(from: &str, to: &str) -> bool
    ensures { result ≡ shelves.is_below from.now to.now }
{
    match following(from, to) {
        Some(rest) => !rest.is_empty(),
        None => false,
    }
}
