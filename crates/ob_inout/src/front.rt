//! What stands at the front of the buffer.

ghost use Rattle.std.specs.Prelude.{◌≡◌, ◌<◌, ◌≤◌, ◌+◌, ◌^◌, true, false, None, Some, MatchOption, IfSome, EachIndex, slice_index, length, take, drop};
ghost use Rattle.std.specs.Char.{is_ascii_digit};
ghost use Rattle.std.specs.List.{prefix_len};
ghost use Rattle.std.specs.Str.Parse.{digits_value};
ghost use Rattle.ob_inout.specs.Reading as spec;
ghost use Rattle.ob_inout.specs.Runs.{has};

/// The characters that stand together.
#[derive(Clone, Copy)]
pub(crate) enum Run {
    Blanks,
    Digits,
    /// Between quotes.
    Quoted,
    /// Of a name.
    Visible,
}

/// What is read, and how many characters that takes.
#[derive(Clone, Copy)]
pub(crate) struct Front<T> {
    pub value: T,
    pub used: usize,
}

fn has(run: Run, c: u8) -> bool
    ensures { result ≡ has run c }
{
    match run {
        Run::Blanks => c <= b' ',
        Run::Digits => c.is_ascii_digit(),
        Run::Quoted => c >= b' ' && c != b'"',
        Run::Visible => c > b' ',
    }
}

/// How many characters of the run stand at the front.
pub(crate) fn run_length(run: Run, chars: &[u8]) -> usize
    ensures count { result ≡ prefix_len (has run) chars.now }
    ensures within { result ≤ length chars.now }
{
    for (i, &c) in chars.iter().enumerate() {
        if !has(run, c) {
            return i;
        }
    }
    chars.len()
}

fn begins(chars: &[u8], c: u8) -> bool
    ensures value { result ≡ spec.begins c chars.now }
    ensures within { result ≡ true → 1 ≤ length chars.now }
{
    match chars {
        [first, ..] => *first == c,
        [] => false,
    }
}

fn behind(chars: &[u8], count: usize) -> &[u8]
    requires { count ≤ length chars.now }
    ensures { result.now ≡ drop count chars.now }
{
    &chars[count..]
}

/// The value of decimal digits, if it is at most 2^31.
fn value_of(digits: &[u8]) -> Option<u32>
    requires { EachIndex digits.now (λ k. is_ascii_digit (slice_index digits.now k) ≡ true) }
    ensures { MatchOption result (2 ^ 31 < digits_value 10 digits.now) (λ value. (value ≡ digits_value 10 digits.now) × (value ≤ 2 ^ 31)) }
{
    let mut value = 0u64;
    for &c in digits {
        value = value * 10 + u64::from(c - b'0');
        if value > 0x8000_0000 {
            return None;
        }
    }
    Some(value as u32)
}

/// The number with its sign, if it is an INTEGER.
fn with_sign(negative: bool, magnitude: u32) -> Option<i32>
    ensures { MatchOption result (spec.is_integer (spec.with_sign negative magnitude) ≡ false) (λ value. (value ≡ spec.with_sign negative magnitude) × (spec.is_integer (spec.with_sign negative magnitude) ≡ true)) }
{
    let value = i64::from(magnitude);
    i32::try_from(if negative { -value } else { value }).ok()
}

/// A number: `-` or not, and digits.
#[tactic(auto, unfolding(crate::specs::Reading::int_at))]
pub(crate) fn integer(chars: &[u8]) -> Option<Front<i32>>
    ensures value { MatchOption result (spec.int_at chars.now ≡ None) (λ front. spec.int_at chars.now ≡ Some (record { value = front.value; rest = drop front.used chars.now })) }
    ensures within { IfSome result (λ front. front.used ≤ length chars.now) }
{
    let negative = begins(chars, b'-');
    let start = usize::from(negative);
    let digits = &chars[start..];
    let count = run_length(Run::Digits, digits);
    if count == 0 {
        return None;
    }
    let magnitude = value_of(&digits[..count])?;
    let value = with_sign(negative, magnitude)?;
    Some(Front {
        value,
        used: start + count,
    })
}

/// How many characters a string between quotes has, where an array of `size` elements has room for it.
#[tactic(auto, unfolding(crate::specs::Reading::string_at))]
pub(crate) fn string(size: usize, chars: &[u8]) -> Option<Front<usize>>
    ensures value { MatchOption result (spec.string_at size chars.now ≡ None) (λ front. spec.string_at size chars.now ≡ Some (record { value = take front.value (drop 1 chars.now); rest = drop front.used chars.now })) }
    ensures used { IfSome result (λ front. front.used ≡ front.value + 2) }
    ensures within { IfSome result (λ front. front.used ≤ length chars.now) }
{
    if !begins(chars, b'"') {
        return None;
    }
    let inside = behind(chars, 1);
    let count = run_length(Run::Quoted, inside);
    let closing = behind(inside, count);
    if !begins(closing, b'"') || count >= size {
        return None;
    }
    Some(Front {
        value: count,
        used: count + 2,
    })
}

/// How many characters a name has, where an array of `size` elements has room for it.
#[tactic(auto, unfolding(crate::specs::Reading::name_at))]
pub(crate) fn name(size: usize, chars: &[u8]) -> Option<Front<usize>>
    ensures value { MatchOption result (spec.name_at size chars.now ≡ None) (λ front. spec.name_at size chars.now ≡ Some (record { value = take front.value chars.now; rest = drop front.used chars.now })) }
    ensures used { IfSome result (λ front. front.used ≡ front.value) }
    ensures within { IfSome result (λ front. front.used ≤ length chars.now) }
{
    let count = run_length(Run::Visible, chars);
    if count >= size {
        return None;
    }
    Some(Front {
        value: count,
        used: count,
    })
}
