//! Sessions that are replayed.

use crate::devices::{Limited, Trickle, played};
use crate::lines::{
    cell_line, ended, failed, first_cell, input_line, input_request, stream, whole_cell,
};
use jk_replay::{End, ReplayFault, Side, replay_lines};
use json_form::Fault;
use std::alloc::Global;
use std::io;
use std::io::Read;
use std::process::Abort;
use std::test::Fail;
use test_language::TestLanguage;

/// An input ends so and writes just this. In particular no memory is wanted, and no device failed.
fn assert_ends<R: AllocGlobal + Abort>(
    rt: &R,
    input: &str,
    wanted: &str,
    wanted_end: End,
) -> Result<(), Fail> {
    let (end, written) = played::<TestLanguage>(rt.alloc(), input.as_bytes(), 50, 0, 0);
    assert_eq!(rt; std::str::from_utf8(written.as_slice()), Ok(wanted));
    assert_eq!(rt; end, Ok(wanted_end));
    Ok(())
}

#[test]
fn an_empty_cell(rt: HostRuntime) -> Result<(), Fail> {
    let line = cell_line(rt.alloc(), "m", "", "")?;
    let wanted = whole_cell(rt.alloc(), "", &[])?;
    assert_ends(&rt, line.as_str(), wanted.as_str(), End::Rest)
}

#[test]
fn a_cell_whole_and_in_slices(rt: HostRuntime) -> Result<(), Fail> {
    let line = cell_line(rt.alloc(), "m", "a..b", "")?;
    let line = line.as_str();
    let whole = whole_cell(rt.alloc(), "a..b", &["ab"])?;
    assert_ends(&rt, line, whole.as_str(), End::Rest)?;
    let four = format!(in rt.alloc(); "{line}{{\"run\":4}}\n")?;
    assert_ends(&rt, four.as_str(), whole.as_str(), End::Rest)?;
    let parts = whole_cell(rt.alloc(), "a..b", &["a", "b"])?;
    let one = format!(in rt.alloc(); "{line}{{\"run\":1}}\n\n{{\"run\":0}}\n{{\"run\":2}}")?;
    assert_ends(&rt, one.as_str(), parts.as_str(), End::Rest)
}

#[test]
fn errors(rt: HostRuntime) -> Result<(), Fail> {
    for (code, streams, ename, evalue) in [
        ("#", [].as_slice(), "CompileError", "compile error 5 at 1:1"),
        ("@", [].as_slice(), "LinkError", "link error 30: M"),
        ("!ab", ["ab"].as_slice(), "Trap", "trap 2 in , line 1"),
    ] {
        let line = cell_line(rt.alloc(), "m", code, "")?;
        let failure = failed(rt.alloc(), "m", 1, ename, evalue)?;
        let wanted = first_cell(rt.alloc(), code, streams, failure.as_str())?;
        assert_ends(&rt, line.as_str(), wanted.as_str(), End::Rest)?;
    }
    Ok(())
}

#[test]
fn a_line_that_is_asked_for(rt: HostRuntime) -> Result<(), Fail> {
    let line = cell_line(rt.alloc(), "m", "a?$", "")?;
    let request = input_request(rt.alloc(), "m")?;
    let asks = first_cell(rt.alloc(), "a?$", &["a"], request.as_str())?;
    assert_ends(&rt, line.as_str(), asks.as_str(), End::WorkLeft)?;
    let input = format!(in rt.alloc();
        "{}{{\"run\":1000}}\n{}",
        line.as_str(),
        input_line(rt.alloc(), "xyz")?.as_str()
    )?;
    let wanted = format!(in rt.alloc();
        "{}{}{}",
        asks.as_str(),
        stream(rt.alloc(), "m", "x")?.as_str(),
        ended(rt.alloc(), "m", 1)?.as_str()
    )?;
    assert_ends(&rt, input.as_str(), wanted.as_str(), End::Rest)
}

#[test]
fn no_line_to_be_had(rt: HostRuntime) -> Result<(), Fail> {
    let wanted = whole_cell(rt.alloc(), "a?b", &["ab"])?;
    let forbidden = cell_line(rt.alloc(), "m", "a?b", ",\"allow_stdin\":false")?;
    assert_ends(&rt, forbidden.as_str(), wanted.as_str(), End::Rest)?;
    let line = cell_line(rt.alloc(), "m", "a?b", "")?;
    let left = format!(in rt.alloc(); "{}{{\"leave\":0}}\n", line.as_str())?;
    assert_ends(&rt, left.as_str(), wanted.as_str(), End::Rest)
}

#[test]
fn a_loop_without_end(rt: HostRuntime) -> Result<(), Fail> {
    // More turns than all slices after the last line have.
    let code = String::from_utf8(Vec::from_elem(rt.alloc(), b'.', 1_000_001)?).or(Err("text"))?;
    let line = cell_line(rt.alloc(), "m", code.as_str(), "")?;
    let (end, written) = played::<TestLanguage>(rt.alloc(), line.as_bytes(), 16_384, 0, 0);
    let wanted = first_cell(rt.alloc(), code.as_str(), &[], "")?;
    assert_eq!(rt; end, Ok(End::WorkLeft));
    assert!(rt; written.as_slice() == wanted.as_bytes());
    Ok(())
}

/// Where an input is refused, and for which fault, where nothing is written.
fn refused(alloc: Global, input: &[u8], step: usize) -> Option<(u64, Fault)> {
    match played::<TestLanguage>(alloc, input, step, 0, 0) {
        (Err(ReplayFault::Line(number, fault)), written) if written.is_empty() => {
            Some((number, fault))
        }
        _ => None,
    }
}

/// The fault of a line after an empty one and a slice.
fn third_refused(alloc: Global, line: &[u8]) -> Result<Option<Fault>, Fail> {
    let mut input = Vec::from_slice(alloc, b"\n{\"run\":1}\n")?;
    input.extend_from_slice(line)?;
    match refused(alloc, input.as_slice(), 20_000) {
        Some((3, fault)) => Ok(Some(fault)),
        _ => Ok(None),
    }
}

#[test]
fn bad_lines(rt: HostRuntime) -> Result<(), Fail> {
    assert_eq!(rt; third_refused(rt.alloc(), b"{")?, Some(Fault::NotJson));
    assert_eq!(rt; third_refused(rt.alloc(), b"\xff\n")?, Some(Fault::NotJson));
    let good = cell_line(rt.alloc(), "m", "", "")?;
    let good = good.as_str();
    for (old, new, fault) in [
        ("\"code\":\"\"", "\"code\":7", Fault::WrongKind),
        ("\"msg_id\":\"m\",", "", Fault::Missing),
        ("\"code\":\"\"", "\"code\":\"\",\"n\":1.5", Fault::NotWhole),
        ("{\"content\"", "{\"seat\":8,\"content\"", Fault::WrongKind),
    ] {
        let line = good.replace(rt.alloc(), old, new)?;
        assert_eq!(rt; third_refused(rt.alloc(), line.as_bytes())?, Some(fault));
    }
    for step in [
        "{\"run\":1000001}",
        "{\"run\":-1}",
        "{\"run\":\"1\"}",
        "{\"leave\":8}",
        "{\"leave\":-1}",
        "{\"leave\":\"0\"}",
    ] {
        assert_eq!(rt;
            third_refused(rt.alloc(), step.as_bytes())?,
            Some(Fault::WrongKind)
        );
    }
    Ok(())
}

#[test]
fn seats_that_leave(rt: HostRuntime) -> Result<(), Fail> {
    // A message that the kernel drops.
    let line = input_line(rt.alloc(), "x")?;
    let line = line.as_str();
    let leave = "{\"leave\":0}\n";
    let never = format!(in rt.alloc(); "{leave}{line}")?;
    let twice = format!(in rt.alloc(); "{line}{leave}{leave}{line}")?;
    let another = format!(in rt.alloc(); "{line}{{\"leave\":1}}\n")?;
    for (input, number) in [(never, 1), (twice, 3), (another, 2)] {
        assert_eq!(rt;
            refused(rt.alloc(), input.as_bytes(), 50),
            Some((number, Fault::WrongKind))
        );
    }
    let again = format!(in rt.alloc(); "{line}{leave}{line}{leave}{line}")?;
    assert_ends(&rt, again.as_str(), "", End::Rest)
}

#[test]
fn long_lines(rt: HostRuntime) -> Result<(), Fail> {
    let mut line = Vec::from_elem(rt.alloc(), b' ', 1_048_576)?;
    assert_eq!(rt;
        third_refused(rt.alloc(), line.as_slice())?,
        Some(Fault::NotJson)
    );
    line.push(b' ')?;
    assert_eq!(rt;
        third_refused(rt.alloc(), line.as_slice())?,
        Some(Fault::TooLong)
    );
    line.push(b'\n')?;
    assert_eq!(rt;
        third_refused(rt.alloc(), line.as_slice())?,
        Some(Fault::TooLong)
    );
    Ok(())
}

#[test]
fn long_lines_that_are_no_text(rt: HostRuntime) -> Result<(), Fail> {
    let mut line = Vec::from_elem(rt.alloc(), b' ', 1_048_579)?;
    line.push(0xff)?;
    line.push(b'\n')?;
    // The line's end comes with the piece after the first 1,048,576 bytes, or is not looked for.
    for step in [16_384, 1_048_577, 1_000] {
        assert_eq!(rt;
            refused(rt.alloc(), line.as_slice(), step),
            Some((1, Fault::TooLong))
        );
    }
    Ok(())
}

/// Slices of no turns without end, each on a line of 1,048,576 bytes.
#[derive(Drop)]
struct Slices {
    given: u64,
}

impl Read for Slices {
    fn read(&mut self, buf: &mut [u8]) -> io::Result<usize> {
        let slice = b"{\"run\":0}";
        for byte in buf.iter_mut() {
            let place = (self.given % 1_048_576) as usize;
            *byte = if place < 9 {
                slice[place]
            } else if place == 1_048_575 {
                b'\n'
            } else {
                b' '
            };
            self.given = self.given.wrapping_add(1);
        }
        Ok(buf.len())
    }
}

#[test]
fn an_input_without_end(rt: HostRuntime) -> Result<(), Fail> {
    let mut reader = Slices { given: 0 };
    let mut written = Vec::new(rt.alloc());
    let end = replay_lines::<TestLanguage, _, _>(rt.alloc(), &mut reader, &mut written);
    assert_eq!(rt; end, Err(ReplayFault::Device(Side::Input)));
    assert_eq!(rt; reader.given, 67_108_865);
    Ok(())
}

#[test]
fn each_write_fails_in_turn(rt: HostRuntime) -> Result<(), Fail> {
    let input = cell_line(rt.alloc(), "m", "ab", "")?;
    let whole = whole_cell(rt.alloc(), "ab", &["ab"])?;
    let writes = whole.len() as u64 / 7;
    for fault in 1..writes {
        let (end, written) = played::<TestLanguage>(rt.alloc(), input.as_bytes(), 50, 0, fault);
        assert_eq!(rt; end, Err(ReplayFault::Device(Side::Output)));
        assert!(rt; whole.as_bytes().starts_with(written.as_slice()));
    }
    Ok(())
}

/// Where a read fails, all is written that the lines before show.
#[test]
fn each_read_fails_in_turn(rt: HostRuntime) -> Result<(), Fail> {
    let cell = cell_line(rt.alloc(), "m", "a.b", "")?;
    let input = format!(in rt.alloc(); "{}{{\"run\":1}}\n{{\"run\":9}}\n", cell.as_str())?;
    let before = first_cell(rt.alloc(), "a.b", &["a"], "")?;
    let whole = whole_cell(rt.alloc(), "a.b", &["a", "b"])?;
    let first = cell.len() + 10;
    let all = input.len();
    for fault in 1..200 {
        let mut reader = Trickle {
            rest: input.as_bytes(),
            step: 1,
            reads: 0,
            fault,
        };
        let mut writer = Limited::new(rt.alloc(), 0);
        let end = replay_lines::<TestLanguage, _, _>(rt.alloc(), &mut reader, &mut writer);
        let given = fault as usize - 1;
        let wanted = if given < first {
            ""
        } else if given < all {
            before.as_str()
        } else {
            whole.as_str()
        };
        assert!(rt; writer.written.as_slice() == wanted.as_bytes());
        let failed = given <= all;
        assert_eq!(rt; end == Err(ReplayFault::Device(Side::Input)), failed);
    }
    Ok(())
}
