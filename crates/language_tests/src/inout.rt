//! Readers of In and writers of Out.

use ob_inout::{Answer, LineBuffer, put_char, put_int, put_line_end, put_string};
use std::alloc::{AllocError, Global};
use std::test::Fail;

#[test]
fn numbers_fill_their_field(rt: HostRuntime) -> Result<(), Fail> {
    let mut output = String::new(rt.alloc());
    put_int(&mut output, 42, 0)?;
    put_int(&mut output, -7, 5)?;
    put_int(&mut output, 0, -3)?;
    put_int(&mut output, -2147483648, 12)?;
    assert_eq!(rt; output.as_str(), "42   -70 -2147483648");
    Ok(())
}

#[test]
fn a_field_has_at_most_1024_characters(rt: HostRuntime) -> Result<(), Fail> {
    let mut output = String::new(rt.alloc());
    put_int(&mut output, 5, 2000)?;
    assert_eq!(rt; output.len(), 1024);
    assert_eq!(rt; output.as_str().trim_start(), "5");
    Ok(())
}

#[test]
fn characters_from_128_on_take_two_bytes(rt: HostRuntime) -> Result<(), Fail> {
    let mut output = String::new(rt.alloc());
    put_char(&mut output, 65)?;
    put_char(&mut output, 228)?;
    put_line_end(&mut output)?;
    assert_eq!(rt; output.as_bytes(), [65u8, 0xC3, 0xA4, 10].as_slice());
    Ok(())
}

#[test]
fn a_string_ends_at_the_first_zero(rt: HostRuntime) -> Result<(), Fail> {
    let mut output = String::new(rt.alloc());
    put_string(&mut output, b"ab\0c\0")?;
    put_string(&mut output, b"")?;
    put_string(&mut output, b" whole")?;
    assert_eq!(rt; output.as_str(), "ab whole");
    Ok(())
}

/// A buffer that asked for a line and was given this one.
fn buffer_of(alloc: Global, line: &str) -> Result<LineBuffer, AllocError> {
    let mut buffer = LineBuffer::new(alloc);
    buffer.push_line(line)?;
    Ok(buffer)
}

#[test]
fn one_line_gives_a_name_a_string_and_a_character(rt: HostRuntime) -> Result<(), Fail> {
    let mut buffer = LineBuffer::new(rt.alloc());
    assert_eq!(rt; buffer.read_name(8), Answer::NeedsLine);
    buffer.push_line("ab \"c d\" x")?;
    assert_eq!(rt; buffer.read_name(8), Answer::Value(()));
    assert_eq!(rt; buffer.word(), b"ab".as_slice());
    assert_eq!(rt; buffer.read_string(8), Answer::Value(()));
    assert_eq!(rt; buffer.word(), b"c d".as_slice());
    assert_eq!(rt; buffer.read_char(), Answer::Value(b' '));
    assert!(rt; buffer.is_done());
    Ok(())
}

#[test]
fn numbers_on_one_line(rt: HostRuntime) -> Result<(), Fail> {
    let mut buffer = buffer_of(rt.alloc(), "12 -34\t2147483647 -2147483648x")?;
    assert_eq!(rt; buffer.read_int(), Answer::Value(12));
    assert_eq!(rt; buffer.read_int(), Answer::Value(-34));
    assert_eq!(rt; buffer.read_int(), Answer::Value(2147483647));
    assert_eq!(rt; buffer.read_int(), Answer::Value(-2147483648));
    assert_eq!(rt; buffer.read_char(), Answer::Value(b'x'));
    assert_eq!(rt; buffer.read_char(), Answer::Value(10));
    assert_eq!(rt; buffer.read_char(), Answer::NeedsLine);
    Ok(())
}

#[test]
fn nothing_is_read_after_a_failure_until_reopened(rt: HostRuntime) -> Result<(), Fail> {
    let mut buffer = buffer_of(rt.alloc(), "99999999999")?;
    assert_eq!(rt; buffer.read_int(), Answer::Failed);
    assert!(rt; !buffer.is_done());
    assert_eq!(rt; buffer.read_char(), Answer::Failed);
    buffer.reopen();
    assert!(rt; buffer.is_done());
    assert_eq!(rt; buffer.read_char(), Answer::NeedsLine);
    Ok(())
}

#[test]
fn a_sign_alone_and_a_number_out_of_range_are_none(rt: HostRuntime) -> Result<(), Fail> {
    for line in ["-", "- 1", "+1", "2147483648", "-2147483649"] {
        let answer = buffer_of(rt.alloc(), line)?.read_int();
        assert_eq!(rt; answer, Answer::Failed, "{line}");
    }
    Ok(())
}

#[test]
fn an_empty_line_is_its_end(rt: HostRuntime) -> Result<(), Fail> {
    let mut buffer = buffer_of(rt.alloc(), "")?;
    assert_eq!(rt; buffer.read_char(), Answer::Value(10));
    let mut other = buffer_of(rt.alloc(), "")?;
    assert_eq!(rt; other.read_int(), Answer::NeedsLine);
    other.push_line("7")?;
    assert_eq!(rt; other.read_int(), Answer::Value(7));
    Ok(())
}

#[test]
fn a_read_without_a_line_fails(rt: HostRuntime) -> Result<(), Fail> {
    let mut buffer = LineBuffer::new(rt.alloc());
    assert_eq!(rt; buffer.read_int(), Answer::NeedsLine);
    buffer.no_line();
    assert_eq!(rt; buffer.read_int(), Answer::Failed);
    Ok(())
}

#[test]
fn characters_past_255_are_question_marks(rt: HostRuntime) -> Result<(), Fail> {
    let mut buffer = buffer_of(rt.alloc(), "\u{100}\u{FF}\u{1F600}a")?;
    assert_eq!(rt; buffer.read_name(5), Answer::Value(()));
    assert_eq!(rt; buffer.word(), b"?\xFF?a".as_slice());
    Ok(())
}

#[test]
fn strings_have_two_quotes_and_are_shorter_than_the_array(rt: HostRuntime) -> Result<(), Fail> {
    for (line, elements) in [("\"abc", 8), ("abc", 8), ("\"abc\"", 3)] {
        let answer = buffer_of(rt.alloc(), line)?.read_string(elements);
        assert_eq!(rt; answer, Answer::Failed, "{line}");
    }
    Ok(())
}

#[test]
fn strings_end_at_their_quote(rt: HostRuntime) -> Result<(), Fail> {
    let mut buffer = buffer_of(rt.alloc(), " \"abc\"\"\"")?;
    assert_eq!(rt; buffer.read_string(4), Answer::Value(()));
    assert_eq!(rt; buffer.word(), b"abc".as_slice());
    assert_eq!(rt; buffer.read_string(1), Answer::Value(()));
    assert_eq!(rt; buffer.word(), b"".as_slice());
    assert_eq!(rt; buffer.read_string(1), Answer::NeedsLine);
    Ok(())
}

#[test]
fn names_are_shorter_than_the_array(rt: HostRuntime) -> Result<(), Fail> {
    assert_eq!(rt; buffer_of(rt.alloc(), "abc")?.read_name(3), Answer::Failed);
    let mut buffer = buffer_of(rt.alloc(), "abc")?;
    assert_eq!(rt; buffer.read_name(4), Answer::Value(()));
    assert_eq!(rt; buffer.word(), b"abc".as_slice());
    Ok(())
}
