//! Recorders of notebooks.

use jk_log::{Entry, To, Told};
use jp_msg::{Channel, Message, Output, read_message};
use json_form::{Shared, Text};
use nb_doc::{Cell, read_notebook, write_notebook};
use nb_record::Recorder;
use std::process::Abort;
use std::test::Fail;

const CODE: &str = "MODULE A; IMPORT Out; BEGIN Out.Int(6*7, 0); Out.Ln END A.";

const RECORDED: &str =
    "{\n  \"cells\": [\n    {\n      \"cell_type\": \"code\",\n      \"execution_count\": 1,\n      \"id\": \"c1\",\n      \"metadata\": {},\n      \"outputs\": [\n        {\n          \"name\": \"stdout\",\n          \"output_type\": \"stream\",\n          \"text\": [\n            \"42\\n\"\n          ]\n        }\n      ],\n      \"source\": [\n        \"MODULE A; IMPORT Out; BEGIN Out.Int(6*7, 0); Out.Ln END A.\"\n      ]\n    }\n  ],\n  \"metadata\": {},\n  \"nbformat\": 4,\n  \"nbformat_minor\": 5\n}\n";

/// A request with these fields of content and this metadata.
fn request(rt: &HostRuntime, more: &str, metadata: &str) -> Result<Shared<Message>, Fail> {
    let text = format!(in rt.alloc();
        "{{\"content\":{{\"code\":\"\"{more}}},\"header\":{{\"msg_id\":\"m\",\"msg_type\":\"execute_request\",\"session\":\"s\"}},\"metadata\":{metadata}}}"
    )?;
    let message = read_message(rt.alloc(), text.as_str())?;
    Ok(Shared::share(rt.alloc(), message)?)
}

fn show(recorder: &mut Recorder, request: &Shared<Message>, output: Output) -> Result<(), Fail> {
    let entry = Entry {
        to: To::All,
        channel: Channel::Iopub,
        parent: Some(request.another()?),
        content: Told::Output(output),
    };
    recorder.entry(&entry)?;
    Ok(())
}

fn run(
    rt: &HostRuntime,
    recorder: &mut Recorder,
    request: &Shared<Message>,
    count: u64,
    text: &str,
) -> Result<(), Fail> {
    show(
        recorder,
        request,
        Output::execute_input(rt.alloc(), CODE, count)?,
    )?;
    show(recorder, request, Output::stream(rt.alloc(), text)?)
}

fn text_of(rt: &HostRuntime, recorder: &Recorder) -> Result<String, Fail> {
    let bytes = write_notebook(rt.alloc(), recorder.notebook())?;
    Ok(String::from_utf8(bytes)?)
}

fn recorder(rt: &HostRuntime) -> Result<Recorder, Fail> {
    let path = Text::from_str(rt.alloc(), "n.ipynb")?;
    Ok(Recorder::empty(rt.alloc(), path))
}

/// A notebook of a cell of text and the code cell c1.
fn put_text(rt: &HostRuntime, count: &str) -> Result<String, Fail> {
    let text = format!(in rt.alloc();
        "{{\"cells\":[{{\"cell_type\":\"markdown\",\"id\":\"m\",\"metadata\":{{}},\"source\":\"\"}},{{\"cell_type\":\"code\",\"execution_count\":{count},\"id\":\"c1\",\"metadata\":{{}},\"outputs\":[],\"source\":\"x\"}}],\"metadata\":{{}},\"nbformat\":4,\"nbformat_minor\":5}}"
    )?;
    Ok(text)
}

/// Whether the notebook as it is written has this text in it.
fn shows(rt: &HostRuntime, recorder: &Recorder, text: &str) -> Result<bool, Fail> {
    Ok(text_of(rt, recorder)?.as_str().contains(text))
}

/// Puts a notebook of a cell of text and the code cell c1 with this count.
fn put(rt: &HostRuntime, recorder: &mut Recorder, count: &str) -> Result<(), Fail> {
    let text = put_text(rt, count)?;
    recorder.put(read_notebook(rt.alloc(), text.as_bytes())?)?;
    Ok(())
}

/// Runs a cell with this metadata to its end.
fn run_cell(
    rt: &HostRuntime,
    recorder: &mut Recorder,
    metadata: &str,
    count: u64,
    text: &str,
) -> Result<(), Fail> {
    let request = request(rt, "", metadata)?;
    run(rt, recorder, &request, count, text)?;
    show(recorder, &request, Output::done_reply(count))
}

fn expect_cells_of_put(rt: &impl Abort, cells: &[Cell]) {
    assert_eq!(rt; cells.len(), 2);
    assert_eq!(rt; cells[0].id.as_str(), "m");
    assert_eq!(rt; cells[1].source.as_str(), "x");
}

fn expect_named_cells(rt: &impl Abort, cells: &[Cell]) {
    assert_eq!(rt; cells.len(), 2);
    assert_eq!(rt; cells[0].id.as_str(), "run-1");
    assert_eq!(rt; cells[1].id.as_str(), "run-2");
}

#[test]
fn records_a_cell(rt: HostRuntime) -> Result<(), Fail> {
    let mut recorder = recorder(&rt)?;
    run_cell(&rt, &mut recorder, "{\"cellId\":\"c1\"}", 1, "42\n")?;
    assert_eq!(rt; text_of(&rt, &recorder)?.as_str(), RECORDED);
    run_cell(&rt, &mut recorder, "{\"cellId\":\"c1\"}", 2, "42\n")?;
    assert!(rt; shows(&rt, &recorder, "\"execution_count\": 2")?);
    assert_eq!(rt; text_of(&rt, &recorder)?.as_str().len(), RECORDED.len());
    Ok(())
}

#[test]
fn keeps_what_ran_at_a_put(rt: HostRuntime) -> Result<(), Fail> {
    let mut recorder = recorder(&rt)?;
    run_cell(&rt, &mut recorder, "{\"cellId\":\"c1\"}", 1, "42\n")?;
    put(&rt, &mut recorder, "7")?;
    expect_cells_of_put(&rt, recorder.notebook().cells.as_slice());
    assert!(rt; shows(&rt, &recorder, "\"execution_count\": 1")?);
    assert!(rt; shows(&rt, &recorder, "42")?);
    put(&rt, &mut recorder, "null")?;
    assert!(rt; shows(&rt, &recorder, "\"execution_count\": null")?);
    assert!(rt; !shows(&rt, &recorder, "42")?);
    Ok(())
}

/// The cell c1 has the count 1 and these eight lines.
const EIGHT_LINES: &str =
    "      \"execution_count\": 1,\n      \"id\": \"c1\",\n      \"metadata\": {},\n      \"outputs\": [\n        {\n          \"name\": \"stdout\",\n          \"output_type\": \"stream\",\n          \"text\": [\n            \"1\\n\",\n            \"2\\n\",\n            \"3\\n\",\n            \"4\\n\",\n            \"5\\n\",\n            \"6\\n\",\n            \"7\\n\",\n            \"8\\n\"\n          ]\n        }\n      ],\n";

/// A put with a null count comes after the fourth line of eight.
#[test]
fn keeps_a_cell_that_runs_at_a_put(rt: HostRuntime) -> Result<(), Fail> {
    let mut recorder = recorder(&rt)?;
    let request = request(&rt, "", "{\"cellId\":\"c1\"}")?;
    run(&rt, &mut recorder, &request, 1, "1\n2\n3\n4\n")?;
    put(&rt, &mut recorder, "null")?;
    let more = Output::stream(rt.alloc(), "5\n6\n7\n8\n")?;
    show(&mut recorder, &request, more)?;
    assert!(rt; shows(&rt, &recorder, EIGHT_LINES)?);
    // With the reply the cell has ended.
    show(&mut recorder, &request, Output::done_reply(1))?;
    assert!(rt; shows(&rt, &recorder, EIGHT_LINES)?);
    put(&rt, &mut recorder, "null")?;
    assert!(rt; !shows(&rt, &recorder, "\"execution_count\": 1")?);
    assert!(rt; !shows(&rt, &recorder, "stdout")?);
    Ok(())
}

/// Another cell runs, which is stored or not.
#[test]
fn empties_a_cell_while_another_runs(rt: HostRuntime) -> Result<(), Fail> {
    let mut recorder = recorder(&rt)?;
    for (fields, metadata) in [
        ("", "{\"cellId\":\"c2\"}"),
        (",\"store_history\":false", "{}"),
    ] {
        run_cell(&rt, &mut recorder, "{\"cellId\":\"c1\"}", 1, "1\n")?;
        assert!(rt; shows(&rt, &recorder, "stdout")?);
        let other = request(&rt, fields, metadata)?;
        run(&rt, &mut recorder, &other, 2, "2\n")?;
        put(&rt, &mut recorder, "null")?;
        assert!(rt; !shows(&rt, &recorder, "stdout")?);
    }
    Ok(())
}

/// A cell without a name that writes `4` and then, in another stream, `2`.
fn run_in_two_streams(rt: &HostRuntime, recorder: &mut Recorder) -> Result<(), Fail> {
    let request = request(rt, "", "{}")?;
    run(rt, recorder, &request, 1, "4")?;
    show(recorder, &request, Output::stream(rt.alloc(), "2\n")?)
}

/// A cell without a name that writes `4` and traps.
fn run_to_a_trap(rt: &HostRuntime, recorder: &mut Recorder) -> Result<(), Fail> {
    let request = request(rt, "", "{}")?;
    run(rt, recorder, &request, 2, "4")?;
    show(
        recorder,
        &request,
        Output::error(rt.alloc(), "Trap", "trap 1")?,
    )
}

#[test]
fn names_cells_and_joins_streams(rt: HostRuntime) -> Result<(), Fail> {
    let mut recorder = recorder(&rt)?;
    run_in_two_streams(&rt, &mut recorder)?;
    assert!(rt; shows(&rt, &recorder, "\"42\\n\"")?);
    run_to_a_trap(&rt, &mut recorder)?;
    expect_named_cells(&rt, recorder.notebook().cells.as_slice());
    assert!(rt; shows(&rt, &recorder, "\"Trap: trap 1\"")?);
    Ok(())
}

#[test]
fn leaves_out_what_is_not_stored(rt: HostRuntime) -> Result<(), Fail> {
    let request = request(&rt, ",\"store_history\":false", "{\"cellId\":\"c1\"}")?;
    let mut recorder = recorder(&rt)?;
    run(&rt, &mut recorder, &request, 1, "4")?;
    assert_eq!(rt; recorder.notebook().cells.as_slice().len(), 0);
    recorder.moved(Text::from_str(rt.alloc(), "o.ipynb")?);
    Ok(())
}
