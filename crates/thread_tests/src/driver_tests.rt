//! What a seat sends is shown at another seat, by a driver and a parser in threads of their own.

use crate::scene::{Cue, Play, show, view_of};
use jk_log::{Told, What};
use jp_msg::{Message, Output, read_message};
use json_form::Shared;
use std::alloc::Global;
use std::test::Fail;

const INTERRUPT: &str =
    r#"{"channel":"control","content":{},"header":{"msg_id":"i","msg_type":"interrupt_request","session":"t"}}"#;

const LINE: &str =
    r#"{"channel":"stdin","content":{"value":"z"},"header":{"msg_id":"l","msg_type":"input_reply","session":"s"}}"#;

fn message(alloc: Global, text: &str) -> Result<Shared<Message>, Fail> {
    Ok(Shared::share(alloc, read_message(alloc, text)?)?)
}

/// A cell of seat 1 is shown at seat 2, but not its reply.
#[test]
fn own_cell_on_another_screen(rt: HostRuntime) -> Result<(), Fail> {
    let alloc = rt.alloc();
    let play = Play {
        code: "42\\n",
        copies: 1,
        cue: None,
        all: 5,
    };
    let entries = show(rt, alloc, play)?;
    assert_eq!(rt; view_of(alloc, &entries, 1)?.as_str(), "besri");
    assert_eq!(rt; view_of(alloc, &entries, 2)?.as_str(), "besi");
    let text = entries.iter().find_map(|entry| match &entry.content {
        Told::Output(Output::Stream(text)) => Some(text.value().as_str()),
        _ => None,
    });
    assert_eq!(rt; text, Some("42\n"));
    Ok(())
}

/// Seat 3 interrupts a cell of seat 1 that would run for long.
#[test]
fn interrupted_from_another_seat(rt: HostRuntime) -> Result<(), Fail> {
    let alloc = rt.alloc();
    let mut code = String::new(alloc);
    for _ in 0..1_000_000 / 2 {
        code.push('.')?;
    }
    let play = Play {
        code: code.as_str(),
        copies: 1,
        cue: Some(Cue {
            shown: 2,
            what: What::Control(message(alloc, INTERRUPT)?),
        }),
        all: 8,
    };
    let entries = show(rt, alloc, play)?;
    assert_eq!(rt; view_of(alloc, &entries, 1)?.as_str(), "bebixri");
    assert_eq!(rt; view_of(alloc, &entries, 3)?.as_str(), "bebnixi");
    Ok(())
}

/// Seat 1 is asked for a line and gives it, while seat 2 watches.
#[test]
fn input_while_another_watches(rt: HostRuntime) -> Result<(), Fail> {
    let alloc = rt.alloc();
    let play = Play {
        code: "?$",
        copies: 1,
        cue: Some(Cue {
            shown: 3,
            what: What::Stdin(message(alloc, LINE)?),
        }),
        all: 6,
    };
    let entries = show(rt, alloc, play)?;
    assert_eq!(rt; view_of(alloc, &entries, 1)?.as_str(), "be?sri");
    assert_eq!(rt; view_of(alloc, &entries, 2)?.as_str(), "besi");
    Ok(())
}

/// Two hundred cells are sent at once, more than the pool takes.
#[test]
fn more_cells_than_the_pool_takes(rt: HostRuntime) -> Result<(), Fail> {
    let alloc = rt.alloc();
    let play = Play {
        code: "42\\n",
        copies: 200,
        cue: None,
        all: 1_000,
    };
    let entries = show(rt, alloc, play)?;
    assert_eq!(rt; entries.len(), 1_000);
    Ok(())
}
