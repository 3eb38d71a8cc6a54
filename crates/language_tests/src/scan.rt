//! Texts and their tokens.

use ob_base::{Code, Refused};
use ob_scan::{Kind, Symbol, Token, same_symbol, scan};
use std::alloc::{AllocError, Global};
use std::test::Fail;

/// A name, string or number as it is, and a reserved word or sign by its name after '!'.
fn show(alloc: Global, token: &Token, shown: &mut Vec<u8>) -> Result<(), AllocError> {
    match &token.kind {
        Kind::Ident(name) => shown.extend_from_slice(name.get().as_slice())?,
        Kind::Integer(number) => {
            let digits = number.to_string(alloc)?;
            shown.extend_from_slice(digits.as_bytes())?;
        }
        Kind::Text(chars) => {
            shown.push(b'"')?;
            shown.extend_from_slice(chars.get().as_slice())?;
        }
        Kind::Symbol(symbol) => {
            let name = format!(in alloc; "{symbol:?}")?;
            shown.push(b'!')?;
            shown.extend_from_slice(name.as_bytes())?;
        }
    }
    shown.push(b' ')?;
    Ok(())
}

fn shown(alloc: Global, text: &str) -> Result<Vec<u8>, AllocError> {
    let mut shown = Vec::new(alloc);
    match scan(alloc, text) {
        Ok(tokens) => {
            for token in tokens.as_slice() {
                show(alloc, token, &mut shown)?;
            }
        }
        Err(Refused::Memory) => return Err(AllocError),
        Err(Refused::Fault(fault)) => shown.push(match fault.code {
            Code::Character => b'1',
            Code::Comment => b'2',
            Code::String => b'3',
            Code::Number => b'4',
            _ => b'5',
        })?,
    }
    Ok(shown)
}

fn last_span(alloc: Global, text: &str) -> Result<[usize; 4], AllocError> {
    match scan(alloc, text) {
        Ok(tokens) => match tokens.as_slice() {
            [.., token] => {
                let span = token.span;
                Ok([
                    span.start as usize,
                    span.end as usize,
                    span.line as usize,
                    span.column as usize,
                ])
            }
            [] => Ok([0; 4]),
        },
        Err(Refused::Memory) => Err(AllocError),
        Err(Refused::Fault(fault)) => Ok([0, 0, fault.line, fault.column]),
    }
}

/// Whether more text could mend the fault.
fn is_at_end(alloc: Global, text: &str) -> Result<bool, AllocError> {
    match scan(alloc, text) {
        Ok(_) => Ok(false),
        Err(Refused::Memory) => Err(AllocError),
        Err(Refused::Fault(fault)) => Ok(fault.at_end),
    }
}

#[test]
fn words_and_signs(rt: HostRuntime) -> Result<(), Fail> {
    for (text, wanted) in [
        (
            "MODULE a1; ModulE",
            b"!Module a1 !Semicolon ModulE ".as_slice(),
        ),
        (
            "a:=b<=c..d.e:f^",
            b"a !Becomes b !LessEqual c !DotDot d !Period e !Colon f !Arrow ".as_slice(),
        ),
        (" (* a (* b *) *)\t", b"".as_slice()),
        ("(* a (* b *)", b"2".as_slice()),
        ("a ! b", b"1".as_slice()),
    ] {
        assert_eq!(rt; shown(rt.alloc(), text)?.as_slice(), wanted, "{text}");
    }
    Ok(())
}

#[test]
fn numbers(rt: HostRuntime) -> Result<(), Fail> {
    for (text, wanted) in [
        (
            "12 0FFH 0FFFFFFFFH 2147483647",
            b"12 255 -1 2147483647 ".as_slice(),
        ),
        ("41X 1..2", b"\"A 1 !DotDot 2 ".as_slice()),
        ("12E", b"4".as_slice()),
        ("1.", b"4".as_slice()),
        ("41X.", b"4".as_slice()),
        ("2147483648", b"4".as_slice()),
        ("100X", b"4".as_slice()),
        ("0FFX", b"\"\xff ".as_slice()),
        ("100000000H", b"4".as_slice()),
    ] {
        assert_eq!(rt; shown(rt.alloc(), text)?.as_slice(), wanted, "{text}");
    }
    Ok(())
}

#[test]
fn strings(rt: HostRuntime) -> Result<(), Fail> {
    for (text, wanted) in [
        ("\"a\u{e9}\" b", b"\"a\xe9 b ".as_slice()),
        ("\"a", b"3".as_slice()),
        ("\"a\nb\"", b"3".as_slice()),
        ("\"\u{100}\"", b"3".as_slice()),
    ] {
        assert_eq!(rt; shown(rt.alloc(), text)?.as_slice(), wanted, "{text}");
    }
    Ok(())
}

#[test]
fn places(rt: HostRuntime) -> Result<(), Fail> {
    for (text, place) in [
        ("\"\u{e9}\"\n  (* \u{e9} *) IF", [16, 18, 2, 11]),
        ("a\n b 12E", [0, 0, 2, 4]),
        ("a\n (* b (* c *)", [0, 0, 2, 2]),
        ("a \"b", [0, 0, 1, 3]),
        ("a  !", [0, 0, 1, 4]),
    ] {
        assert_eq!(rt; last_span(rt.alloc(), text)?, place, "{text}");
    }
    Ok(())
}

#[test]
fn faults_at_the_end(rt: HostRuntime) -> Result<(), Fail> {
    assert!(rt; is_at_end(rt.alloc(), "a (* b")?);
    assert!(rt; !is_at_end(rt.alloc(), "a \"b")?);
    Ok(())
}

#[test]
fn names_have_at_most_64_characters(rt: HostRuntime) -> Result<(), Fail> {
    let longest = "a23456789012345678901234567890123456789012345678901234567890abcd";
    assert_eq!(rt; last_span(rt.alloc(), longest)?, [0, 64, 1, 1]);
    let longer = "a23456789012345678901234567890123456789012345678901234567890abcde";
    assert_eq!(rt; shown(rt.alloc(), longer)?.as_slice(), b"4".as_slice());
    Ok(())
}

#[test]
fn symbols_are_compared(rt: HostRuntime) -> Result<(), Fail> {
    assert!(rt; same_symbol(Symbol::If, Symbol::If));
    assert!(rt; !same_symbol(Symbol::If, Symbol::In));
    Ok(())
}
