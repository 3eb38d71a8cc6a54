//! Notebooks that are read straight of their texts, and those of bodies that put them.

use crate::notebooks::{NAMED, NAMED_AGAIN, REFUSED, joined, notebook_text};
use json_form::Text;
use nb_doc::{NbBad, NbFault, write_notebook};
use nb_read::{Unread, read_book_put, read_notebook};
use std::test::Fail;

fn refused(rt: &HostRuntime, text: &str) -> Option<NbFault> {
    match read_notebook(rt.alloc(), text.as_bytes()) {
        Err(NbBad::Fault(fault)) => Some(fault),
        _ => None,
    }
}

/// What is written of the notebook that is read here.
fn again(rt: &HostRuntime, text: &str) -> Result<String, Fail> {
    let notebook = read_notebook(rt.alloc(), text.as_bytes())?;
    let bytes = write_notebook(rt.alloc(), &notebook)?;
    let written = std::str::from_utf8(bytes.as_slice())?;
    Ok(String::from_str(rt.alloc(), written)?)
}

/// What is written of the notebook that nb_doc reads.
fn again_by_value(rt: &HostRuntime, text: &str) -> Result<String, Fail> {
    let notebook = nb_doc::read_notebook(rt.alloc(), text.as_bytes())?;
    let bytes = write_notebook(rt.alloc(), &notebook)?;
    let written = std::str::from_utf8(bytes.as_slice())?;
    Ok(String::from_str(rt.alloc(), written)?)
}

#[test]
fn reads_what_is_written(rt: HostRuntime) -> Result<(), Fail> {
    let text = notebook_text(&rt, 5, joined(&rt, &NAMED)?.as_str())?;
    assert_eq!(rt; again(&rt, text.as_str())?.as_str(), NAMED_AGAIN);
    assert_eq!(rt; again_by_value(&rt, text.as_str())?.as_str(), NAMED_AGAIN);
    assert_eq!(rt; again(&rt, NAMED_AGAIN)?.as_str(), NAMED_AGAIN);
    Ok(())
}

/// Sources as they stand in a text, and what they are.
const SOURCES: [(&str, &str); 6] = [
    ("\"\"", ""),
    ("\"a\\u00e9\\n\\t\\\"b\\\"\\\\\\/\"", "aé\n\t\"b\"\\/"),
    ("\"\\ud83d\\ude00\"", "😀"),
    ("[\"a\\n\",\"b\"]", "a\nb"),
    ("[\"\\u0061\",\"\",\"é\"]", "aé"),
    ("[]", ""),
];

#[test]
fn reads_escapes(rt: HostRuntime) -> Result<(), Fail> {
    for (written, source) in SOURCES {
        let cell = format!(in rt.alloc();
            "{{\"cell_type\":\"raw\",\"\\u0069d\":\"\\u0062-1\",\"metadata\":{{}},\"source\":{written}}}"
        )?;
        let text = notebook_text(&rt, 5, cell.as_str())?;
        let notebook = read_notebook(rt.alloc(), text.as_bytes())?;
        let cells = notebook.cells.as_slice();
        assert_eq!(rt; cells.len(), 1);
        assert_eq!(rt; cells[0].id.as_str(), "b-1");
        assert_eq!(rt; cells[0].source.as_str(), source);
    }
    Ok(())
}

/// Numbers, and whether a notebook may have them.
const NUMBERS: [(&str, bool); 10] = [
    ("0", true),
    ("18446744073709551615", true),
    ("-9223372036854775808", true),
    ("1.5", false),
    ("1.0", false),
    ("1e2", false),
    ("-0", false),
    ("18446744073709551616", false),
    ("-9223372036854775809", false),
    ("[{\"n\":[1.5]}]", false),
];

#[test]
fn takes_whole_numbers_alone(rt: HostRuntime) -> Result<(), Fail> {
    for (number, is_whole) in NUMBERS {
        let cell = format!(in rt.alloc();
            "{{\"cell_type\":\"raw\",\"id\":\"a\",\"metadata\":{{\"n\":{number},\"n\":1}},\"source\":\"\"}}"
        )?;
        let text = notebook_text(&rt, 5, cell.as_str())?;
        let fault = if is_whole {
            None
        } else {
            Some(NbFault::NotWhole)
        };
        assert_eq!(rt; refused(&rt, text.as_str()), fault);
    }
    Ok(())
}

const CELL: &str = "{\"cell_type\":\"raw\",\"id\":\"a\",\"metadata\":{},\"source\":\"\"}";

const BAD_ID: &str = "{\"cell_type\":\"raw\",\"id\":\"a b\",\"metadata\":{},\"source\":\"\"}";

const NO_ID: &str = "{\"cell_type\":\"raw\",\"metadata\":{},\"source\":\"\"}";

const NO_COUNT: &str =
    "{\"cell_type\":\"code\",\"id\":\"a\",\"metadata\":{},\"outputs\":[],\"source\":\"\"}";

/// Cells of a notebook of 4.5, and its first fault, if there is one.
const CELLS: [(&[&str], Option<NbFault>); 6] = [
    (&[CELL], None),
    (&[CELL, CELL], Some(NbFault::RepeatedId)),
    (&[CELL, CELL, BAD_ID], Some(NbFault::BadId)),
    (&[NO_ID], Some(NbFault::BadField)),
    (&[NO_COUNT], Some(NbFault::BadField)),
    (&["7"], Some(NbFault::BadField)),
];

#[test]
fn names_the_first_fault(rt: HostRuntime) -> Result<(), Fail> {
    for (text, fault) in REFUSED {
        assert_eq!(rt; refused(&rt, text), Some(fault));
    }
    for (cells, fault) in CELLS {
        let text = notebook_text(&rt, 5, joined(&rt, cells)?.as_str())?;
        assert_eq!(rt; refused(&rt, text.as_str()), fault);
    }
    let not_utf8 = [34, 255, 34];
    let bytes = read_notebook(rt.alloc(), &not_utf8);
    assert!(rt; matches!(&bytes, Err(NbBad::Fault(NbFault::NotJson))));
    Ok(())
}

#[test]
fn raises_older_notebooks(rt: HostRuntime) -> Result<(), Fail> {
    let text = notebook_text(&rt, 4, joined(&rt, &[NO_ID, CELL])?.as_str())?;
    let notebook = read_notebook(rt.alloc(), text.as_bytes())?;
    let cells = notebook.cells.as_slice();
    assert_eq!(rt; cells.len(), 2);
    assert_eq!(rt; cells[0].id.as_str(), "run-1");
    assert_eq!(rt; cells[1].id.as_str(), "a");
    Ok(())
}

/// A body with a notebook of one cell between two texts.
fn body(rt: &HostRuntime, minor: u32, before: &str, after: &str) -> Result<String, Fail> {
    let mut body = String::from_str(rt.alloc(), before)?;
    body.push_str(notebook_text(rt, minor, CELL)?.as_str())?;
    body.push_str(after)?;
    Ok(body)
}

/// What stands before and after the notebook in bodies that put one, and the date that they have. Of equal keys the last counts.
const PUTS: [(&str, &str, Option<&str>); 6] = [
    ("{\"type\":\"notebook\",\"content\":", "}", None),
    (
        "{\"type\":\"notebook\",\"content\":",
        ",\"last_modified\":\"2026-11-28T10:00:00Z\"}",
        Some("2026-11-28T10:00:00Z"),
    ),
    (
        " {\"last_modified\":null,\"format\":\"json\",\"content\":",
        ",\"type\":\"notebook\"} ",
        None,
    ),
    (
        "{\"type\":\"file\",\"content\":7,\"content\":",
        ",\"type\":\"notebook\"}",
        None,
    ),
    (
        "{\"last_modified\":7,\"content\":",
        ",\"type\":\"notebook\",\"last_modified\":\"b\"}",
        Some("b"),
    ),
    (
        "{\"last_modified\":\"a\",\"content\":",
        ",\"type\":\"notebook\",\"last_modified\":null}",
        None,
    ),
];

fn is_date(found: &Option<Text>, wanted: Option<&str>) -> bool {
    match found {
        None => wanted.is_none(),
        Some(found) => match wanted {
            None => false,
            Some(wanted) => found.as_str() == wanted,
        },
    }
}

#[test]
fn reads_bodies_that_put_notebooks(rt: HostRuntime) -> Result<(), Fail> {
    for (before, after, date) in PUTS {
        let body = body(&rt, 5, before, after)?;
        let put = read_book_put(rt.alloc(), body.as_bytes())?;
        assert!(rt; is_date(&put.last_modified, date));
        let cells = put.notebook.cells.as_slice();
        assert_eq!(rt; cells.len(), 1);
        assert_eq!(rt; cells[0].id.as_str(), "a");
    }
    Ok(())
}

/// Bodies that are left to others.
const OTHERS: [(&str, &str); 10] = [
    ("{\"type\":\"file\",\"content\":", "}"),
    ("{\"content\":", "}"),
    ("{\"type\":7,\"content\":", "}"),
    ("{\"type\":\"notebook\",\"content\":", ",\"type\":\"file\"}"),
    ("{\"type\":\"notebook\",\"content\":", ",\"content\":null}"),
    ("{\"type\":\"notebook\",\"contents\":", "}"),
    (
        "{\"type\":\"notebook\",\"content\":",
        ",\"last_modified\":7}",
    ),
    ("{\"type\":\"notebook\",\"content\":", ",\"x\":1.5}"),
    ("{\"type\":\"notebook\",\"content\":", "} 7"),
    ("[{\"type\":\"notebook\",\"content\":", "}]"),
];

fn is_other(rt: &HostRuntime, body: &[u8]) -> bool {
    matches!(&read_book_put(rt.alloc(), body), Err(Unread::Other))
}

#[test]
fn leaves_other_bodies(rt: HostRuntime) -> Result<(), Fail> {
    for (before, after) in OTHERS {
        let body = body(&rt, 5, before, after)?;
        assert!(rt; is_other(&rt, body.as_bytes()));
    }
    let older = body(&rt, 4, "{\"type\":\"notebook\",\"content\":", "}")?;
    assert!(rt; is_other(&rt, older.as_bytes()));
    assert!(rt; is_other(&rt, "".as_bytes()));
    let not_utf8 = [34, 255, 34];
    assert!(rt; is_other(&rt, &not_utf8));
    Ok(())
}
