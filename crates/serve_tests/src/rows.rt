//! Steps that many tests have, and what messages are like.

use crate::steps::Step;

/// A new kernel.
pub const KERNEL: Step = Step::Asks("POST /api/kernels", "", "HTTP/1.1 201 Created\r\n");

/// The identifier of the kernel that was made.
pub const ITS_ID: Step = Step::Notes("\r\n\r\n{");

/// A new screen of the kernel that was noted.
pub const SCREEN: Step = Step::Opens("HTTP/1.1 101 Switching Protocols\r\n");

/// The types of requests.
pub const INFO: &str = "kernel_info_request";

pub const CELL: &str = "execute_request";

/// Of the request `a`, which asks for the kernel's information.
pub const BUSY_A: &str = r#""content":{"execution_state":"busy"}*"parent_header":{*"msg_id":"a""#;

pub const INFO_A: &str = r#""msg_type":"kernel_info_reply"*"parent_header":{*"msg_id":"a""#;

pub const IDLE_A: &str = r#""content":{"execution_state":"idle"}*"parent_header":{*"msg_id":"a""#;

/// Of the cell `c`.
pub const BUSY_C: &str = r#""content":{"execution_state":"busy"}*"parent_header":{*"msg_id":"c""#;

pub const INPUT_C: &str =
    r#""execution_count":1}*"msg_type":"execute_input"*"parent_header":{*"msg_id":"c""#;

pub const ASKED_C: &str =
    r#""channel":"stdin","content":{"password":false,"prompt":""}*"msg_type":"input_request"*"parent_header":{*"msg_id":"c""#;

pub const OK_C: &str =
    r#""channel":"shell","content":{"execution_count":1,"payload":[],"status":"ok","user_expressions":{}}*"msg_type":"execute_reply"*"parent_header":{*"msg_id":"c""#;

pub const IDLE_C: &str = r#""content":{"execution_state":"idle"}*"parent_header":{*"msg_id":"c""#;

/// Of the cell `d`, which is the second of a session.
pub const BUSY_D: &str = r#""content":{"execution_state":"busy"}*"parent_header":{*"msg_id":"d""#;

pub const INPUT_D: &str =
    r#""execution_count":2}*"msg_type":"execute_input"*"parent_header":{*"msg_id":"d""#;

pub const ASKED_D: &str =
    r#""channel":"stdin","content":{"password":false,"prompt":""}*"msg_type":"input_request"*"parent_header":{*"msg_id":"d""#;

pub const OK_D: &str =
    r#""channel":"shell","content":{"execution_count":2,"payload":[],"status":"ok","user_expressions":{}}*"msg_type":"execute_reply"*"parent_header":{*"msg_id":"d""#;

pub const IDLE_D: &str = r#""content":{"execution_state":"idle"}*"parent_header":{*"msg_id":"d""#;

/// What a cell shows.
pub const SHOWS_ZERO: &str = r#""content":{"name":"stdout","text":"\u0000"}*"msg_type":"stream""#;

pub const SHOWS_2: &str = r#""content":{"name":"stdout","text":"2"}*"msg_type":"stream""#;

pub const SHOWS_4: &str = r#""content":{"name":"stdout","text":"4"}*"msg_type":"stream""#;

pub const SHOWS_42: &str = r#""content":{"name":"stdout","text":"42\n"}*"msg_type":"stream""#;
