//! Messages, read and written.

use jp_msg::{
    Bad, Channel, Completeness, Content, Fault, MAX_MESSAGE, Message, Output, Request, Stamp,
    State, message_of_value, number_of, output_json, read_message, read_value, write_message,
};
use json_form::{Shared, Whole};
use std::test::Fail;

/// A cell as a notebook's frontend may send it.
const CELL: &str =
    "{\"channel\":\"shell\",\"content\":{\"code\":\"MODULE A; END A.\"},\"header\":{\"msg_id\":\"m1\",\"msg_type\":\"execute_request\",\"session\":\"s1\"},\"metadata\":{\"cellId\":\"c1\"}}";

const STAMP: Stamp<'_> = Stamp {
    msg_id: "k2",
    session: "k",
    date: "1970-01-01T00:00:00.000000Z",
};

/// A message of a type with a content, on a channel.
fn message_text(
    rt: &HostRuntime,
    channel: &str,
    msg_type: &str,
    content: &str,
) -> Result<String, Fail> {
    Ok(format!(in rt.alloc();
        "{{\"channel\":\"{}\",\"content\":{},\"header\":{{\"msg_id\":\"m\",\"msg_type\":\"{}\",\"session\":\"s\"}}}}",
        channel, content, msg_type
    )?)
}

fn request(
    rt: &HostRuntime,
    channel: &str,
    msg_type: &str,
    content: &str,
) -> Result<Content, Fail> {
    let text = message_text(rt, channel, msg_type, content)?;
    Ok(read_message(rt.alloc(), text.as_str())?.content)
}

/// The number of the fault of a text, and 0 where it is read.
fn fault(rt: &HostRuntime, text: &str) -> u8 {
    match read_message(rt.alloc(), text) {
        Ok(_) => 0,
        Err(Bad::Fault(fault)) => number_of(fault),
        Err(Bad::Memory) => 6,
    }
}

fn fault_of(rt: &HostRuntime, channel: &str, msg_type: &str, content: &str) -> Result<u8, Fail> {
    let text = message_text(rt, channel, msg_type, content)?;
    Ok(fault(rt, text.as_str()))
}

#[test]
fn reads_a_cell(rt: HostRuntime) -> Result<(), Fail> {
    let message = read_message(rt.alloc(), CELL)?;
    assert_eq!(rt; message.header.msg_id.as_str(), "m1");
    assert_eq!(rt; message.header.session.as_str(), "s1");
    assert_eq!(rt; message.header.msg_type.as_str(), "execute_request");
    assert_eq!(rt; message.header.username.as_str(), "");
    assert_eq!(rt; message.header.date.as_str(), "");
    assert_eq!(rt; message.header.version.as_str(), "");
    assert_eq!(rt; message.parent_header.write(rt.alloc())?.as_str(), "{}");
    assert_eq!(rt;
        message.metadata.write(rt.alloc())?.as_str(),
        "{\"cellId\":\"c1\"}"
    );
    assert!(rt; message.channel == Channel::Shell);
    if let Content::Request(Request::Execute(execute)) = &message.content {
        assert_eq!(rt; execute.code.value().as_str(), "MODULE A; END A.");
        assert!(rt; !execute.silent && execute.store_history);
        assert!(rt; execute.allow_stdin && execute.stop_on_error);
        assert_eq!(rt; execute.user_expressions.write(rt.alloc())?.as_str(), "{}");
        return Ok(());
    }
    assert!(rt; false);
    Ok(())
}

/// What is read of a request, in a word or two, with the fields that it has of its own.
fn told(rt: &HostRuntime, content: &Content) -> Result<String, Fail> {
    let alloc = rt.alloc();
    let Content::Request(request) = content else {
        return Ok(String::from_str(alloc, "of the kernel")?);
    };
    Ok(match request {
        Request::Execute(e) => format!(in alloc;
            "execute {} {} {} {} {}",
            e.code.value().as_str(),
            e.silent,
            e.store_history,
            e.allow_stdin,
            e.stop_on_error
        )?,
        Request::KernelInfo => String::from_str(alloc, "kernel info")?,
        Request::IsComplete { code } => format!(in alloc; "is complete {}", code.as_str())?,
        Request::Complete { cursor_pos } => format!(in alloc; "complete {}", cursor_pos.number())?,
        Request::Inspect => String::from_str(alloc, "inspect")?,
        Request::History => String::from_str(alloc, "history")?,
        Request::CommInfo => String::from_str(alloc, "comm info")?,
        Request::Interrupt => String::from_str(alloc, "interrupt")?,
        Request::Shutdown { restart } => format!(in alloc; "shutdown {restart}")?,
        Request::InputReply { value } => format!(in alloc; "input {}", value.as_str())?,
        Request::Other => String::from_str(alloc, "other")?,
    })
}

/// A channel, a type, a content, and what is read. A type that has no meaning on its channel is another message, whose content
/// is not looked at.
const REQUESTS: [(&str, &str, &str, &str); 19] = [
    (
        "shell",
        "execute_request",
        "{\"allow_stdin\":false,\"code\":\"c\",\"silent\":true,\"stop_on_error\":false,\"store_history\":false,\"user_expressions\":{\"a\":\"b\"}}",
        "execute c true false false false",
    ),
    (
        "shell",
        "execute_request",
        "{\"code\":\"c\"}",
        "execute c false true true true",
    ),
    ("shell", "kernel_info_request", "{}", "kernel info"),
    ("control", "kernel_info_request", "{}", "kernel info"),
    (
        "shell",
        "is_complete_request",
        "{\"code\":\"x\"}",
        "is complete x",
    ),
    (
        "shell",
        "is_complete_request",
        "{\"code\":7,\"code\":\"y\"}",
        "is complete y",
    ),
    ("shell", "complete_request", "{}", "complete 0"),
    (
        "shell",
        "complete_request",
        "{\"cursor_pos\":-3}",
        "complete -3",
    ),
    ("shell", "inspect_request", "{}", "inspect"),
    ("shell", "history_request", "{}", "history"),
    ("shell", "comm_info_request", "{}", "comm info"),
    ("control", "interrupt_request", "{}", "interrupt"),
    ("control", "shutdown_request", "{}", "shutdown false"),
    (
        "control",
        "shutdown_request",
        "{\"restart\":true}",
        "shutdown true",
    ),
    (
        "stdin",
        "input_reply",
        "{\"value\":\"12 34\"}",
        "input 12 34",
    ),
    ("control", "execute_request", "{\"code\":7}", "other"),
    ("shell", "interrupt_request", "{}", "other"),
    ("shell", "input_reply", "{}", "other"),
    ("shell", "comm_open", "{\"code\":7}", "other"),
];

#[test]
fn reads_each_request(rt: HostRuntime) -> Result<(), Fail> {
    for (channel, msg_type, content, wanted) in REQUESTS {
        let read = request(&rt, channel, msg_type, content)?;
        assert_eq!(rt; told(&rt, &read)?.as_str(), wanted);
    }
    Ok(())
}

/// Texts, and the numbers of their faults, of which the first is told.
const TEXTS: [(&str, u8); 16] = [
    ("{", 1),
    ("{\"n\":1e999}", 1),
    ("{\"s\":\"\\ud800\"}", 1),
    ("{\"n\":1.5}", 4),
    ("{\"n\":1e2}", 4),
    ("{\"n\":-0}", 4),
    ("{\"n\":18446744073709551616}", 4),
    ("{\"n\":18446744073709551615}", 2),
    ("7", 2),
    ("{\"header\":1.5,\"header\":7}", 4),
    ("{\"header\":7}", 3),
    ("{\"header\":null}", 3),
    (
        "{\"content\":{\"code\":7},\"header\":{\"msg_type\":\"execute_request\",\"session\":\"s\"}}",
        2,
    ),
    (
        "{\"channel\":7,\"header\":{\"msg_id\":\"m\",\"msg_type\":\"execute_request\",\"session\":\"s\"}}",
        2,
    ),
    (
        "{\"content\":{},\"header\":{\"msg_id\":\"m\",\"msg_type\":\"t\",\"session\":\"s\"},\"metadata\":[]}",
        3,
    ),
    (
        "{\"buffers\":[{}],\"content\":{},\"header\":{\"msg_id\":\"m\",\"msg_type\":\"execute_request\",\"session\":\"s\"}}",
        3,
    ),
];

#[test]
fn refuses_texts(rt: HostRuntime) -> Result<(), Fail> {
    for (text, number) in TEXTS {
        assert_eq!(rt; fault(&rt, text), number);
    }
    Ok(())
}

/// A channel, a type, a content, and the number of its fault, or 0.
const CONTENTS: [(&str, &str, &str, u8); 12] = [
    ("shell", "execute_request", "{\"code\":\"x\",\"n\":1.5}", 4),
    (
        "shell",
        "execute_request",
        "{\"code\":\"x\",\"n\":1.5,\"n\":1}",
        4,
    ),
    (
        "shell",
        "execute_request",
        "{\"code\":\"x\",\"n\":{\"a\":1e2,\"a\":1}}",
        4,
    ),
    (
        "shell",
        "execute_request",
        "{\"code\":-0,\"code\":\"x\"}",
        4,
    ),
    (
        "shell",
        "execute_request",
        "{\"code\":7,\"code\":\"x\",\"n\":1,\"n\":2}",
        0,
    ),
    ("iopub", "status", "{}", 3),
    ("shell", "execute_request", "{}", 2),
    ("shell", "execute_request", "{\"code\":7}", 3),
    ("shell", "execute_request", "{\"code\":7,\"n\":1.5}", 4),
    ("shell", "complete_request", "{\"cursor_pos\":true}", 3),
    ("control", "shutdown_request", "{\"restart\":1}", 3),
    ("stdin", "input_reply", "{}", 2),
];

#[test]
fn refuses_contents(rt: HostRuntime) -> Result<(), Fail> {
    for (channel, msg_type, content, number) in CONTENTS {
        assert_eq!(rt; fault_of(&rt, channel, msg_type, content)?, number);
    }
    Ok(())
}

/// Lists in one another, so many levels deep.
fn nested(rt: &HostRuntime, depth: usize) -> Result<String, Fail> {
    let mut text = String::new(rt.alloc());
    for _ in 0..depth {
        text.push('[')?;
    }
    for _ in 0..depth {
        text.push(']')?;
    }
    Ok(text)
}

#[test]
fn stops_at_the_limits(rt: HostRuntime) -> Result<(), Fail> {
    assert_eq!(rt; fault(&rt, nested(&rt, 127)?.as_str()), 2);
    assert_eq!(rt; fault(&rt, nested(&rt, 128)?.as_str()), 1);
    let mut text = String::from_str(rt.alloc(), CELL)?;
    for _ in 0..1_048_576 {
        if text.len() < MAX_MESSAGE {
            text.push(' ')?;
        }
    }
    assert_eq!(rt; text.len(), 1_048_576);
    assert_eq!(rt; fault(&rt, text.as_str()), 0);
    text.push('{')?;
    assert_eq!(rt; fault(&rt, text.as_str()), 5);
    Ok(())
}

#[test]
fn reads_a_line_once(rt: HostRuntime) -> Result<(), Fail> {
    let line = read_value(
        rt.alloc(),
        "{\"content\":{},\"header\":{\"msg_id\":\"m\",\"msg_type\":\"t\",\"session\":\"s\"},\"seat\":3}",
    )?;
    assert!(rt; line.value().get("seat").is_some());
    assert_eq!(rt;
        message_of_value(rt.alloc(), &line)?.header.msg_id.as_str(),
        "m"
    );
    let step = read_value(rt.alloc(), "{\"run\":10}")?;
    let bad = match message_of_value(rt.alloc(), &step) {
        Ok(_) => None,
        Err(bad) => Some(bad),
    };
    assert_eq!(rt; bad, Some(Bad::Fault(Fault::Missing)));
    Ok(())
}

fn written(rt: &HostRuntime, channel: Channel, output: Output) -> Result<String, Fail> {
    let parent = read_message(rt.alloc(), CELL)?;
    let message = Message::of_kernel(rt.alloc(), STAMP, &parent, channel, output)?;
    Ok(write_message(rt.alloc(), &message)?)
}

#[test]
fn writes_a_stream(rt: HostRuntime) -> Result<(), Fail> {
    let text = written(&rt, Channel::Iopub, Output::stream(rt.alloc(), "42\n")?)?;
    assert_eq!(rt;
        text.as_str(),
        "{\"buffers\":[],\"channel\":\"iopub\",\"content\":{\"name\":\"stdout\",\"text\":\"42\\n\"},\"header\":{\"date\":\"1970-01-01T00:00:00.000000Z\",\"msg_id\":\"k2\",\"msg_type\":\"stream\",\"session\":\"k\",\"username\":\"kernel\",\"version\":\"5.4\"},\"metadata\":{},\"parent_header\":{\"msg_id\":\"m1\",\"msg_type\":\"execute_request\",\"session\":\"s1\"}}"
    );
    Ok(())
}

#[test]
fn copies_are_equal(rt: HostRuntime) -> Result<(), Fail> {
    let cell = read_message(rt.alloc(), CELL)?;
    let stream = Message::of_kernel(
        rt.alloc(),
        STAMP,
        &cell,
        Channel::Iopub,
        Output::stream(rt.alloc(), "42\n")?,
    )?;
    let text = write_message(rt.alloc(), &stream)?;
    let copy = stream.copy()?;
    drop(stream);
    assert_eq!(rt; write_message(rt.alloc(), &copy)?.as_str(), text.as_str());
    let text = write_message(rt.alloc(), &cell)?;
    assert_eq!(rt;
        write_message(rt.alloc(), &cell.copy()?)?.as_str(),
        text.as_str()
    );
    let shared = Shared::share(rt.alloc(), cell)?;
    let other = shared.another()?;
    drop(shared);
    assert_eq!(rt;
        write_message(rt.alloc(), other.value())?.as_str(),
        text.as_str()
    );
    Ok(())
}

#[test]
fn writes_a_request_again(rt: HostRuntime) -> Result<(), Fail> {
    let text = write_message(rt.alloc(), &read_message(rt.alloc(), CELL)?)?;
    assert_eq!(rt;
        text.as_str(),
        "{\"buffers\":[],\"channel\":\"shell\",\"content\":{\"allow_stdin\":true,\"code\":\"MODULE A; END A.\",\"silent\":false,\"stop_on_error\":true,\"store_history\":true,\"user_expressions\":{}},\"header\":{\"date\":\"\",\"msg_id\":\"m1\",\"msg_type\":\"execute_request\",\"session\":\"s1\",\"username\":\"kernel\",\"version\":\"5.4\"},\"metadata\":{\"cellId\":\"c1\"},\"parent_header\":{}}"
    );
    Ok(())
}

/// Whether this is the type and the content of an output.
fn tells(rt: &HostRuntime, output: Output, msg_type: &str, content: &str) -> Result<bool, Fail> {
    let json = output_json(rt.alloc(), &output)?;
    let text = json.write(rt.alloc())?;
    Ok(text.as_str() == content && output.type_name() == msg_type)
}

#[test]
fn writes_what_is_told(rt: HostRuntime) -> Result<(), Fail> {
    let alloc = rt.alloc();
    assert!(rt;
        tells(
            &rt,
            Output::status(State::Busy),
            "status",
            "{\"execution_state\":\"busy\"}"
        )?
    );
    assert!(rt;
        tells(
            &rt,
            Output::status(State::Idle),
            "status",
            "{\"execution_state\":\"idle\"}"
        )?
    );
    assert!(rt;
        tells(
            &rt,
            Output::execute_input(alloc, "A.B", 3)?,
            "execute_input",
            "{\"code\":\"A.B\",\"execution_count\":3}"
        )?
    );
    assert!(rt;
        tells(
            &rt,
            Output::stream(alloc, "\u{1}\"\\/é")?,
            "stream",
            "{\"name\":\"stdout\",\"text\":\"\\u0001\\\"\\\\/é\"}"
        )?
    );
    assert!(rt;
        tells(
            &rt,
            Output::error(alloc, "Trap", "trap 2 in D, line 1")?,
            "error",
            "{\"ename\":\"Trap\",\"evalue\":\"trap 2 in D, line 1\",\"traceback\":[\"Trap: trap 2 in D, line 1\"]}"
        )?
    );
    assert!(rt;
        tells(
            &rt,
            Output::error(alloc, "Interrupted", "")?,
            "error",
            "{\"ename\":\"Interrupted\",\"evalue\":\"\",\"traceback\":[\"Interrupted\"]}"
        )?
    );
    assert!(rt;
        tells(
            &rt,
            Output::input_request(),
            "input_request",
            "{\"password\":false,\"prompt\":\"\"}"
        )?
    );
    Ok(())
}

#[test]
fn writes_each_reply(rt: HostRuntime) -> Result<(), Fail> {
    let alloc = rt.alloc();
    assert!(rt;
        tells(
            &rt,
            Output::done_reply(1),
            "execute_reply",
            "{\"execution_count\":1,\"payload\":[],\"status\":\"ok\",\"user_expressions\":{}}"
        )?
    );
    assert!(rt;
        tells(
            &rt,
            Output::failed_reply(alloc, 2, "LinkError", "link error 30: Q")?,
            "execute_reply",
            "{\"ename\":\"LinkError\",\"evalue\":\"link error 30: Q\",\"execution_count\":2,\"status\":\"error\",\"traceback\":[\"LinkError: link error 30: Q\"]}"
        )?
    );
    assert!(rt;
        tells(
            &rt,
            Output::aborted_reply(),
            "execute_reply",
            "{\"status\":\"aborted\"}"
        )?
    );
    assert!(rt;
        tells(
            &rt,
            Output::kernel_info_reply(),
            "kernel_info_reply",
            "{\"banner\":\"Oberon-07\",\"implementation\":\"jupyter_oberon\",\"implementation_version\":\"1.0.0\",\"language_info\":{\"file_extension\":\".Mod\",\"mimetype\":\"text/x-oberon\",\"name\":\"oberon\",\"version\":\"07\"},\"protocol_version\":\"5.4\",\"status\":\"ok\"}"
        )?
    );
    assert!(rt;
        tells(
            &rt,
            Output::is_complete_reply(Completeness::Complete),
            "is_complete_reply",
            "{\"status\":\"complete\"}"
        )?
    );
    assert!(rt;
        tells(
            &rt,
            Output::is_complete_reply(Completeness::Incomplete),
            "is_complete_reply",
            "{\"indent\":\"\",\"status\":\"incomplete\"}"
        )?
    );
    assert!(rt;
        tells(
            &rt,
            Output::is_complete_reply(Completeness::Invalid),
            "is_complete_reply",
            "{\"status\":\"invalid\"}"
        )?
    );
    assert!(rt;
        tells(
            &rt,
            Output::complete_reply(Whole::from_u64(7)),
            "complete_reply",
            "{\"cursor_end\":7,\"cursor_start\":7,\"matches\":[],\"metadata\":{},\"status\":\"ok\"}"
        )?
    );
    assert!(rt;
        tells(
            &rt,
            Output::inspect_reply(),
            "inspect_reply",
            "{\"data\":{},\"found\":false,\"metadata\":{},\"status\":\"ok\"}"
        )?
    );
    assert!(rt;
        tells(
            &rt,
            Output::history_reply(),
            "history_reply",
            "{\"history\":[],\"status\":\"ok\"}"
        )?
    );
    assert!(rt;
        tells(
            &rt,
            Output::comm_info_reply(),
            "comm_info_reply",
            "{\"comms\":{},\"status\":\"ok\"}"
        )?
    );
    assert!(rt;
        tells(
            &rt,
            Output::interrupt_reply(),
            "interrupt_reply",
            "{\"status\":\"ok\"}"
        )?
    );
    assert!(rt;
        tells(
            &rt,
            Output::shutdown_reply(true),
            "shutdown_reply",
            "{\"restart\":true,\"status\":\"ok\"}"
        )?
    );
    Ok(())
}
