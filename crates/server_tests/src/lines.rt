//! Lines of input, and the lines that a replay writes for them.

use std::alloc::{AllocError, Global};

/// A line by which seat 0 asks for a cell. `more` are further fields of its content, each after a comma.
pub fn cell_line(alloc: Global, id: &str, code: &str, more: &str) -> Result<String, AllocError> {
    format!(in alloc;
        "{{\"content\":{{\"code\":\"{code}\"{more}}},\"header\":{{\"msg_id\":\"{id}\",\"msg_type\":\"execute_request\",\"session\":\"s\"}}}}\n"
    )
}

/// A line by which seat 0 sends a line that was asked for.
pub fn input_line(alloc: Global, line: &str) -> Result<String, AllocError> {
    format!(in alloc;
        "{{\"channel\":\"stdin\",\"content\":{{\"value\":\"{line}\"}},\"header\":{{\"msg_id\":\"r\",\"msg_type\":\"input_reply\",\"session\":\"s\"}}}}\n"
    )
}

/// A line of an entry to all.
fn told(alloc: Global, id: &str, kind: &str, content: &str) -> Result<String, AllocError> {
    format!(in alloc;
        "{{\"channel\":\"iopub\",\"content\":{content},\"msg_type\":\"{kind}\",\"parent\":\"{id}\",\"to\":\"all\"}}\n"
    )
}

/// The lines of busy and of the input of a cell.
pub fn begun(alloc: Global, id: &str, code: &str, count: u64) -> Result<String, AllocError> {
    let mut lines = told(alloc, id, "status", "{\"execution_state\":\"busy\"}")?;
    let input = format!(in alloc; "{{\"code\":\"{code}\",\"execution_count\":{count}}}")?;
    lines.push_str(told(alloc, id, "execute_input", input.as_str())?.as_str())?;
    Ok(lines)
}

/// The line of what a cell wrote.
pub fn stream(alloc: Global, id: &str, text: &str) -> Result<String, AllocError> {
    let content = format!(in alloc; "{{\"name\":\"stdout\",\"text\":\"{text}\"}}")?;
    told(alloc, id, "stream", content.as_str())
}

/// The line by which seat 0 is asked for a line.
pub fn input_request(alloc: Global, id: &str) -> Result<String, AllocError> {
    format!(in alloc;
        "{{\"channel\":\"stdin\",\"content\":{{\"password\":false,\"prompt\":\"\"}},\"msg_type\":\"input_request\",\"parent\":\"{id}\",\"to\":0}}\n"
    )
}

/// The lines of a reply to seat 0, and idle.
fn replied(alloc: Global, id: &str, content: &str) -> Result<String, AllocError> {
    let idle = told(alloc, id, "status", "{\"execution_state\":\"idle\"}")?;
    let idle = idle.as_str();
    format!(in alloc;
        "{{\"channel\":\"shell\",\"content\":{content},\"msg_type\":\"execute_reply\",\"parent\":\"{id}\",\"to\":0}}\n{idle}"
    )
}

/// The lines of a cell that ends well.
pub fn ended(alloc: Global, id: &str, count: u64) -> Result<String, AllocError> {
    let content = format!(in alloc;
        "{{\"execution_count\":{count},\"payload\":[],\"status\":\"ok\",\"user_expressions\":{{}}}}"
    )?;
    replied(alloc, id, content.as_str())
}

/// The lines of an error.
pub fn failed(
    alloc: Global,
    id: &str,
    count: u64,
    ename: &str,
    evalue: &str,
) -> Result<String, AllocError> {
    let error = format!(in alloc;
        "{{\"ename\":\"{ename}\",\"evalue\":\"{evalue}\",\"traceback\":[\"{ename}: {evalue}\"]}}"
    )?;
    let reply = format!(in alloc;
        "{{\"ename\":\"{ename}\",\"evalue\":\"{evalue}\",\"execution_count\":{count},\"status\":\"error\",\"traceback\":[\"{ename}: {evalue}\"]}}"
    )?;
    let mut lines = told(alloc, id, "error", error.as_str())?;
    lines.push_str(replied(alloc, id, reply.as_str())?.as_str())?;
    Ok(lines)
}

/// Texts, one after another.
pub fn joined(alloc: Global, parts: &[String]) -> Result<String, AllocError> {
    let mut text = String::new(alloc);
    for part in parts {
        text.push_str(part.as_str())?;
    }
    Ok(text)
}

/// The lines of the first cell, `m`, with what it wrote, and then `end`.
pub fn first_cell(
    alloc: Global,
    code: &str,
    streams: &[&str],
    end: &str,
) -> Result<String, AllocError> {
    let mut lines = begun(alloc, "m", code, 1)?;
    for text in streams {
        lines.push_str(stream(alloc, "m", text)?.as_str())?;
    }
    lines.push_str(end)?;
    Ok(lines)
}

/// The lines of the first cell, `m`, which ends well.
pub fn whole_cell(alloc: Global, code: &str, streams: &[&str]) -> Result<String, AllocError> {
    first_cell(alloc, code, streams, ended(alloc, "m", 1)?.as_str())
}
