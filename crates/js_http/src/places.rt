//! Where a byte stands in a text.
ghost use Rattle.std.specs.Prelude.{◌≡◌, ◌≤◌, ◌==◌, length};
ghost use Rattle.std.specs.List.{position_or_len, before_first, after_first};

/// The place of the first such byte, or the length.
pub(crate) fn byte_place(text: &[u8], sought: u8) -> usize
    ensures first { result ≡ position_or_len (λ byte. byte == sought) text.now }
    ensures within { result ≤ length text.now }
{
    match text.iter().position(|&byte| byte == sought) {
        Some(place) => place,
        None => text.len(),
    }
}

/// The text up to the first such byte, and what follows that byte.
pub(crate) fn split_at_byte(text: &[u8], sought: u8) -> (&[u8], &[u8])
    ensures before { result.0.now ≡ before_first (λ byte. byte == sought) text.now }
    ensures after { result.1.now ≡ after_first (λ byte. byte == sought) text.now }
{
    let (before, behind) = text.split_at(byte_place(text, sought));
    if behind.is_empty() {
        (before, behind)
    } else {
        (before, &behind[1..])
    }
}
