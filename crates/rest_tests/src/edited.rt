//! Notebooks that somebody else changes beside their recorders.

use crate::plays::{Server, asked, start};
use jk_log::{Entry, To, Told};
use jp_msg::{Channel, Message, Output, State, read_message};
use js_follow::follow;
use js_shelf::{Bytes, Item, Shelf};
use json_form::{Shared, Text};
use std::alloc::Global;
use std::process::Abort;
use std::test::Fail;

const DATE: &str = "2001-09-09T01:46:40.123456Z";

const SESSION: &str = r#"POST /api/sessions {"path":"n.ipynb","type":"notebook"}"#;

/// A notebook with these cells.
fn book(alloc: Global, cells: &str) -> Result<String, Fail> {
    Ok(format!(in alloc;
        "{{\"cells\":[{cells}],\"metadata\":{{}},\"nbformat\":4,\"nbformat_minor\":5}}"
    )?)
}

/// A code cell that has not run.
const FRESH: &str =
    r#"{"cell_type":"code","execution_count":null,"id":"c1","metadata":{},"outputs":[],"source":"x"}"#;

/// The same cell with another source, after a text.
const EDITED: &str =
    r#"{"cell_type":"markdown","id":"m","metadata":{},"source":"a text"},{"cell_type":"code","execution_count":null,"id":"c1","metadata":{},"outputs":[],"source":"y"}"#;

/// The same with a count.
const EDITED_RUN: &str =
    r#"{"cell_type":"markdown","id":"m","metadata":{},"source":"a text"},{"cell_type":"code","execution_count":7,"id":"c1","metadata":{},"outputs":[],"source":"y"}"#;

/// Another cell, without a run.
const BARE: &str =
    r#"{"cell_type":"code","execution_count":null,"id":"c2","metadata":{},"outputs":[],"source":"x"}"#;

const TEXT: &str = r#"{"cell_type":"markdown","id":"m","metadata":{},"source":"a text"}"#;

/// Somebody else writes the file.
fn write(rt: &impl Abort, alloc: Global, server: &mut Server, text: &str) -> Result<(), Fail> {
    let bytes = Bytes::from(Vec::from_slice(alloc, text.as_bytes())?);
    let put = server.shelf.put("n.ipynb", Item::File(bytes));
    assert!(rt; put.is_ok());
    Ok(())
}

/// Somebody else writes a notebook with these cells.
fn edit(rt: &impl Abort, alloc: Global, server: &mut Server, cells: &str) -> Result<(), Fail> {
    let text = book(alloc, cells)?;
    write(rt, alloc, server, text.as_str())
}

/// A server with a session on a notebook of these cells.
fn opened<R: AllocGlobal + Abort>(rt: &R, cells: &str) -> Result<Server, Fail> {
    let alloc = rt.alloc();
    let mut server = start(alloc)?;
    edit(rt, alloc, &mut server, cells)?;
    let _ = asked(rt, alloc, &mut server, SESSION)?;
    Ok(server)
}

/// The recorder is told entries.
fn tell(alloc: Global, server: &mut Server, entries: Vec<Entry>) -> Result<(), Fail> {
    let date = Text::from_str(alloc, DATE)?;
    let kernel = server
        .manager
        .tables
        .recordings
        .first()
        .ok_or("a recorder")?
        .kernel
        .copy()?;
    let tables = &mut server.manager.tables;
    let _ = follow(
        alloc,
        tables,
        &mut server.shelf,
        &date,
        kernel.as_str(),
        entries,
    );
    Ok(())
}

fn entry(request: &Shared<Message>, output: Output) -> Result<Entry, Fail> {
    Ok(Entry {
        to: To::All,
        channel: Channel::Iopub,
        parent: Some(request.another()?),
        content: Told::Output(output),
    })
}

/// The request of a stored cell of that id.
fn request(alloc: Global, id: &str) -> Result<Shared<Message>, Fail> {
    let text = format!(in alloc;
        "{{\"content\":{{\"code\":\"\"}},\"header\":{{\"msg_id\":\"m\",\"msg_type\":\"execute_request\",\"session\":\"s\"}},\"metadata\":{{\"cellId\":\"{id}\"}}}}"
    )?;
    let message = read_message(alloc, text.as_str())?;
    Ok(Shared::share(alloc, message)?)
}

/// A cell of that id begins and writes a line.
fn begin(alloc: Global, server: &mut Server, id: &str, count: u64) -> Result<(), Fail> {
    let request = request(alloc, id)?;
    let mut entries = Vec::new(alloc);
    entries.push(entry(&request, Output::execute_input(alloc, "z", count)?)?)?;
    entries.push(entry(&request, Output::stream(alloc, "42\n")?)?)?;
    tell(alloc, server, entries)
}

/// It ends.
fn end(alloc: Global, server: &mut Server, id: &str, count: u64) -> Result<(), Fail> {
    let request = request(alloc, id)?;
    let mut entries = Vec::new(alloc);
    entries.push(entry(&request, Output::done_reply(count))?)?;
    entries.push(entry(&request, Output::status(State::Idle))?)?;
    tell(alloc, server, entries)
}

fn run(alloc: Global, server: &mut Server, id: &str, count: u64) -> Result<(), Fail> {
    begin(alloc, server, id, count)?;
    end(alloc, server, id, count)
}

/// The file at a path, without its spaces and line ends.
fn file(alloc: Global, server: &mut Server, path: &str) -> Result<String, Fail> {
    let Ok(Item::File(bytes)) = server.shelf.get(path) else {
        return Ok(String::from_str(alloc, "no file")?);
    };
    let text = String::from_utf8(bytes.into_vec())?;
    let mut bare = String::new(alloc);
    for word in text.as_str().split_whitespace() {
        bare.push_str(word)?;
    }
    Ok(bare)
}

/// A run of a cell, as the file has it.
fn ran(alloc: Global, id: &str, count: u64, source: &str) -> Result<String, Fail> {
    Ok(format!(in alloc;
        "{{\"cell_type\":\"code\",\"execution_count\":{count},\"id\":\"{id}\",\"metadata\":{{}},\"outputs\":[{{\"name\":\"stdout\",\"output_type\":\"stream\",\"text\":[\"42\\n\"]}}],\"source\":[\"{source}\"]}}"
    )?)
}

/// A put of a notebook with these cells, and the first word of its answer.
fn put<R: Abort>(rt: &R, alloc: Global, server: &mut Server, cells: &str) -> Result<String, Fail> {
    let text = book(alloc, cells)?;
    let line = format!(in alloc;
        "PUT /api/contents/n.ipynb {{\"type\":\"notebook\",\"content\":{}}}",
        text.as_str()
    )?;
    let answer = asked(rt, alloc, server, line.as_str())?;
    let status = answer.as_str().split_whitespace().next();
    Ok(String::from_str(alloc, status.ok_or("a status")?)?)
}

/// Nothing happened, but a save may be due.
fn rest(alloc: Global, server: &mut Server) -> Result<(), Fail> {
    tell(alloc, server, Vec::new(alloc))
}

const SHOWN_EDITED: &str =
    r#"{"cell_type":"markdown","id":"m","metadata":{},"source":["atext"]},{"cell_type":"code","execution_count":null,"id":"c1","metadata":{},"outputs":[],"source":["y"]}"#;

const SHOWN_BARE: &str =
    r#"{"cell_type":"code","execution_count":null,"id":"c2","metadata":{},"outputs":[],"source":["x"]}"#;

const SHOWN_TEXT: &str = r#"{"cell_type":"markdown","id":"m","metadata":{},"source":["atext"]}"#;

/// The file has these cells.
fn expect(rt: &impl Abort, alloc: Global, server: &mut Server, cells: &str) -> Result<(), Fail> {
    let wanted = book(alloc, cells)?;
    let found = file(alloc, server, "n.ipynb")?;
    assert_eq!(rt; found.as_str(), wanted.as_str());
    Ok(())
}

/// A text and a source that an editor wrote stay, and so do the run of a cell that it has and a cell that it has not.
#[test]
fn an_editors_cells_and_the_recorders(rt: HostRuntime) -> Result<(), Fail> {
    let alloc = rt.alloc();
    let mut server = opened(&rt, FRESH)?;
    run(alloc, &mut server, "c1", 1)?;
    edit(&rt, alloc, &mut server, EDITED_RUN)?;
    run(alloc, &mut server, "c2", 2)?;
    let (first, second) = (ran(alloc, "c1", 1, "y")?, ran(alloc, "c2", 2, "z")?);
    let cells = format!(in alloc; "{SHOWN_TEXT},{},{}", first.as_str(), second.as_str())?;
    expect(&rt, alloc, &mut server, cells.as_str())
}

/// The cell ran while an editor had it without a run.
#[test]
fn an_edit_while_a_cell_runs(rt: HostRuntime) -> Result<(), Fail> {
    let alloc = rt.alloc();
    let mut server = opened(&rt, FRESH)?;
    begin(alloc, &mut server, "c1", 1)?;
    edit(&rt, alloc, &mut server, EDITED)?;
    end(alloc, &mut server, "c1", 1)?;
    let first = ran(alloc, "c1", 1, "y")?;
    let cells = format!(in alloc; "{SHOWN_TEXT},{}", first.as_str())?;
    expect(&rt, alloc, &mut server, cells.as_str())
}

/// An editor wrote a text before the cell as it was before it ran.
#[test]
fn an_edit_beside_a_cell_that_ran(rt: HostRuntime) -> Result<(), Fail> {
    let alloc = rt.alloc();
    let mut server = opened(&rt, FRESH)?;
    begin(alloc, &mut server, "c1", 1)?;
    let cells = format!(in alloc; "{TEXT},{FRESH}")?;
    edit(&rt, alloc, &mut server, cells.as_str())?;
    end(alloc, &mut server, "c1", 1)?;
    let first = ran(alloc, "c1", 1, "z")?;
    let cells = format!(in alloc; "{SHOWN_TEXT},{}", first.as_str())?;
    expect(&rt, alloc, &mut server, cells.as_str())
}

/// A cell that an editor took away is gone, and its run where an editor took that away.
#[test]
fn what_an_editor_takes_away(rt: HostRuntime) -> Result<(), Fail> {
    let alloc = rt.alloc();
    let mut server = opened(&rt, FRESH)?;
    run(alloc, &mut server, "c1", 1)?;
    edit(&rt, alloc, &mut server, TEXT)?;
    run(alloc, &mut server, "c2", 2)?;
    let second = ran(alloc, "c2", 2, "z")?;
    let cells = format!(in alloc; "{SHOWN_TEXT},{}", second.as_str())?;
    expect(&rt, alloc, &mut server, cells.as_str())?;
    edit(&rt, alloc, &mut server, BARE)?;
    run(alloc, &mut server, "c3", 3)?;
    let third = ran(alloc, "c3", 3, "z")?;
    let cells = format!(in alloc; "{SHOWN_BARE},{}", third.as_str())?;
    expect(&rt, alloc, &mut server, cells.as_str())
}

/// What is no notebook goes beside. A file that is gone is made anew.
#[test]
fn what_is_no_notebook(rt: HostRuntime) -> Result<(), Fail> {
    let alloc = rt.alloc();
    let mut server = opened(&rt, FRESH)?;
    write(&rt, alloc, &mut server, "half a no")?;
    run(alloc, &mut server, "c1", 1)?;
    let first = ran(alloc, "c1", 1, "z")?;
    expect(&rt, alloc, &mut server, first.as_str())?;
    let place = format!(in alloc; "n.ipynb.{DATE}")?;
    assert_eq!(rt;
        file(alloc, &mut server, place.as_str())?.as_str(),
        "halfano"
    );
    let gone = server.shelf.delete("n.ipynb");
    assert!(rt; gone.is_ok());
    run(alloc, &mut server, "c1", 2)?;
    let second = ran(alloc, "c1", 2, "z")?;
    expect(&rt, alloc, &mut server, second.as_str())
}

/// Whichever call of the device fails, the next save has all.
#[test]
fn an_edit_before_a_device_fails(rt: HostRuntime) -> Result<(), Fail> {
    let alloc = rt.alloc();
    for fault in 1..4 {
        let mut server = opened(&rt, FRESH)?;
        edit(&rt, alloc, &mut server, EDITED)?;
        server.shelf.fail_at(fault);
        run(alloc, &mut server, "c1", 1)?;
        rest(alloc, &mut server)?;
        let first = ran(alloc, "c1", 1, "y")?;
        let cells = format!(in alloc; "{SHOWN_TEXT},{}", first.as_str())?;
        expect(&rt, alloc, &mut server, cells.as_str())?;
    }
    Ok(())
}

/// A put over an edit is refused once. The recorder takes the edit, which the next put takes the place of.
#[test]
fn a_put_over_an_edit(rt: HostRuntime) -> Result<(), Fail> {
    let alloc = rt.alloc();
    let mut server = opened(&rt, FRESH)?;
    edit(&rt, alloc, &mut server, EDITED)?;
    let refused = put(&rt, alloc, &mut server, BARE)?;
    assert_eq!(rt; refused.as_str(), "409");
    rest(alloc, &mut server)?;
    expect(&rt, alloc, &mut server, SHOWN_EDITED)?;
    let put_over = put(&rt, alloc, &mut server, BARE)?;
    assert_eq!(rt; put_over.as_str(), "200");
    expect(&rt, alloc, &mut server, SHOWN_BARE)
}

/// The same where the edit has as many bytes as the recorder's file, and where it is no notebook.
#[test]
fn a_put_over_half_a_notebook(rt: HostRuntime) -> Result<(), Fail> {
    let alloc = rt.alloc();
    let mut server = opened(&rt, FRESH)?;
    let known = book(alloc, FRESH)?;
    let rest_of = known.as_str().strip_prefix("{").unwrap_or("");
    let mut half = String::from_str(alloc, rest_of)?;
    half.push_str(" ")?;
    write(&rt, alloc, &mut server, half.as_str())?;
    let refused = put(&rt, alloc, &mut server, BARE)?;
    assert_eq!(rt; refused.as_str(), "409");
    rest(alloc, &mut server)?;
    let put_over = put(&rt, alloc, &mut server, BARE)?;
    assert_eq!(rt; put_over.as_str(), "200");
    expect(&rt, alloc, &mut server, SHOWN_BARE)
}

/// A file that is gone is made by a put, and one that was not changed is put over.
#[test]
fn a_put_beside_no_edit(rt: HostRuntime) -> Result<(), Fail> {
    let alloc = rt.alloc();
    let mut server = opened(&rt, FRESH)?;
    let put_over = put(&rt, alloc, &mut server, EDITED)?;
    assert_eq!(rt; put_over.as_str(), "200");
    let gone = server.shelf.delete("n.ipynb");
    assert!(rt; gone.is_ok());
    let made = put(&rt, alloc, &mut server, BARE)?;
    assert_eq!(rt; made.as_str(), "201");
    expect(&rt, alloc, &mut server, SHOWN_BARE)
}

/// A file of more than 67,108,864 bytes is not read: it goes beside.
#[test]
fn an_edit_that_is_too_long(rt: HostRuntime) -> Result<(), Fail> {
    let alloc = rt.alloc();
    for (len, moves) in [(67_108_864, false), (67_108_865, true)] {
        let mut server = opened(&rt, FRESH)?;
        edit(&rt, alloc, &mut server, TEXT)?;
        server.shelf.say_len(len);
        run(alloc, &mut server, "c2", 1)?;
        let place = format!(in alloc; "n.ipynb.{DATE}")?;
        let beside = file(alloc, &mut server, place.as_str())?;
        assert_eq!(rt; beside.as_str() != "no file", moves);
    }
    Ok(())
}
