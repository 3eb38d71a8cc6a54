//! The exit statuses of a replay.

use crate::devices::{Limited, Trickle};
use crate::lines::cell_line;
use jk_replay::{End, ReplayFault, ended_status, replay_status, usage_status};
use std::alloc::Global;
use std::test::Fail;
use test_language::TestLanguage;

/// The status of a replay, and what it tells. Reads, writes and what is told fail as told, 0 for never.
fn ended(
    alloc: Global,
    input: &[u8],
    read_fault: u64,
    write_fault: u64,
    error_fault: u64,
) -> (u8, Vec<u8>) {
    let mut reader = Trickle {
        rest: input,
        step: 50,
        reads: 0,
        fault: read_fault,
    };
    let mut writer = Limited::new(alloc, write_fault);
    let mut errors = Limited::new(alloc, error_fault);
    let status = replay_status::<TestLanguage, _, _, _>(
        alloc,
        &mut reader,
        &mut writer,
        &mut errors,
    );
    (status, errors.written)
}

fn ends<R: AllocGlobal>(rt: &R, input: &[u8], wanted_status: u8, wanted: &str) -> bool {
    let (status, told) = ended(rt.alloc(), input, 0, 0, 0);
    status == wanted_status && told.as_slice() == wanted.as_bytes()
}

#[test]
fn rest(rt: HostRuntime) -> Result<(), Fail> {
    assert!(rt; ends(&rt, b"", 0, ""));
    let cell = cell_line(rt.alloc(), "m", "ab", "")?;
    assert!(rt; ends(&rt, cell.as_bytes(), 0, ""));
    Ok(())
}

#[test]
fn refused_lines(rt: HostRuntime) {
    assert!(rt; ends(&rt, b"{", 1, "line 1: bad 1\n"));
    assert!(rt;
        ends(
            &rt,
            b"{\"run\":1}\n\n{\"leave\":0}\n{",
            1,
            "line 3: bad 3\n"
        )
    );
    assert!(rt; ends(&rt, b"{\"content\":{}}\n", 1, "line 1: bad 2\n"));
    assert!(rt; ends(&rt, b"\n{\"run\":1.5}\n", 1, "line 2: bad 4\n"));
}

#[test]
fn work_left(rt: HostRuntime) -> Result<(), Fail> {
    let cell = cell_line(rt.alloc(), "m", "a?b", "")?;
    assert!(rt; ends(&rt, cell.as_bytes(), 3, "work left\n"));
    Ok(())
}

#[test]
fn devices_that_fail(rt: HostRuntime) -> Result<(), Fail> {
    let cell = cell_line(rt.alloc(), "m", "ab", "")?;
    for (read_fault, write_fault) in [(1, 0), (2, 0), (0, 1), (0, 5)] {
        let (status, told) = ended(rt.alloc(), cell.as_bytes(), read_fault, write_fault, 0);
        assert_eq!(rt; status, 4);
        assert!(rt; told.as_slice() == b"device failed\n".as_slice());
    }
    let (status, _) = ended(rt.alloc(), b"{", 0, 0, 1);
    assert_eq!(rt; status, 4);
    Ok(())
}

#[test]
fn want_of_memory_and_rest(rt: HostRuntime) {
    let mut errors = Limited::new(rt.alloc(), 0);
    assert_eq!(rt; ended_status(Err(ReplayFault::Memory), &mut errors), 2);
    assert!(rt; errors.written.as_slice() == b"out of memory\n".as_slice());
    assert_eq!(rt; ended_status(Ok(End::Rest), &mut errors), 0);
    assert!(rt; errors.written.as_slice() == b"out of memory\n".as_slice());
}

#[test]
fn wrong_arguments(rt: HostRuntime) {
    let mut errors = Limited::new(rt.alloc(), 0);
    assert_eq!(rt; usage_status(&mut errors), 1);
    let wanted = b"usage: jupyter_oberon replay | serve PORT ROOT\n";
    assert!(rt; errors.written.as_slice() == wanted.as_slice());
}
