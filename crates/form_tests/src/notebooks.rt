//! Notebooks, read and written.

use json_form::{Json, Text, Whole};
use nb_doc::{
    Cell, Content, Listed, Names, NbBad, NbFault, Notebook, Output, is_allowed_id, number_of,
    read_notebook, write_notebook,
};
use std::test::Fail;

/// A notebook with one cell that has run.
const ANSWER: &str = "{
  \"cells\": [
    {
      \"cell_type\": \"code\",
      \"execution_count\": 1,
      \"id\": \"c1\",
      \"metadata\": {},
      \"outputs\": [
        {
          \"name\": \"stdout\",
          \"output_type\": \"stream\",
          \"text\": [
            \"42\\n\"
          ]
        }
      ],
      \"source\": [
        \"MODULE A; IMPORT Out; BEGIN Out.Int(6*7, 0); Out.Ln END A.\"
      ]
    }
  ],
  \"metadata\": {},
  \"nbformat\": 4,
  \"nbformat_minor\": 5
}
";

fn refused(rt: &HostRuntime, text: &str) -> Option<NbFault> {
    match read_notebook(rt.alloc(), text.as_bytes()) {
        Err(NbBad::Fault(fault)) => Some(fault),
        _ => None,
    }
}

/// What is written of the notebook that is read.
fn again(rt: &HostRuntime, text: &str) -> Result<String, Fail> {
    let notebook = read_notebook(rt.alloc(), text.as_bytes())?;
    let bytes = write_notebook(rt.alloc(), &notebook)?;
    let written = std::str::from_utf8(bytes.as_slice())?;
    Ok(String::from_str(rt.alloc(), written)?)
}

/// A notebook of a minor version with these cells.
pub(crate) fn notebook_text(rt: &HostRuntime, minor: u32, cells: &str) -> Result<String, Fail> {
    Ok(format!(in rt.alloc();
        "{{\"cells\":[{cells}],\"metadata\":{{}},\"nbformat\":4,\"nbformat_minor\":{minor}}}"
    )?)
}

/// The fault of a notebook of 4.5 with these cells.
fn refused_cells(rt: &HostRuntime, cells: &str) -> Result<Option<NbFault>, Fail> {
    let text = notebook_text(rt, 5, cells)?;
    Ok(refused(rt, text.as_str()))
}

#[test]
fn writes_a_cell_that_has_run(rt: HostRuntime) -> Result<(), Fail> {
    let source = "MODULE A; IMPORT Out; BEGIN Out.Int(6*7, 0); Out.Ln END A.";
    let mut cell = Cell::code(rt.alloc(), "c1", source, Some(Whole::from_u64(1)))?;
    if let Content::Code(execution) = &mut cell.content {
        execution
            .outputs
            .push(Output::stream(rt.alloc(), "stdout", "4")?)?;
        execution
            .outputs
            .push(Output::stream(rt.alloc(), "stdout", "2\n")?)?;
    }
    let mut notebook = Notebook::empty(rt.alloc());
    notebook.cells.push(cell)?;
    let bytes = write_notebook(rt.alloc(), &notebook)?;
    assert_eq!(rt; std::str::from_utf8(bytes.as_slice())?, ANSWER);
    assert_eq!(rt; again(&rt, ANSWER)?.as_str(), ANSWER);
    Ok(())
}

#[test]
fn joins_streams_of_one_name(rt: HostRuntime) -> Result<(), Fail> {
    let stream = |name: &str, text: &str| -> Result<String, Fail> {
        Ok(format!(in rt.alloc();
            "{{\"name\":\"{name}\",\"output_type\":\"stream\",\"text\":\"{text}\"}}"
        )?)
    };
    let outputs = format!(in rt.alloc();
        "{},{},{},{}",
        stream("stdout", "4")?,
        stream("stdout", "2\\n3")?,
        stream("stderr", "")?,
        stream("stdout", "x")?
    )?;
    let cell = format!(in rt.alloc();
        "{{\"cell_type\":\"code\",\"id\":\"a\",\"metadata\":{{}},\"source\":[\"a\\n\",\"b\"],\"execution_count\":null,\"outputs\":[{outputs}]}}"
    )?;
    let text = notebook_text(&rt, 5, cell.as_str())?;
    let written = again(&rt, text.as_str())?;
    assert!(rt;
        written.as_str().contains(
            "\"text\": [\n            \"42\\n\",\n            \"3\"\n          ]"
        )
    );
    assert!(rt;
        written.as_str().contains(
            "\"name\": \"stderr\",\n          \"output_type\": \"stream\",\n          \"text\": []"
        )
    );
    assert!(rt;
        written
            .as_str()
            .contains("\"source\": [\n        \"a\\n\",\n        \"b\"\n      ]")
    );
    assert!(rt; written.as_str().contains("\"execution_count\": null"));
    assert_eq!(rt; again(&rt, written.as_str())?.as_str(), written.as_str());
    Ok(())
}

pub(crate) const REFUSED: [(&str, NbFault); 8] = [
    ("{", NbFault::NotJson),
    ("[1.5]", NbFault::NotWhole),
    (
        "{\"cells\":[],\"metadata\":{\"x\":1.5},\"nbformat\":4,\"nbformat_minor\":4}",
        NbFault::NotWhole,
    ),
    ("7", NbFault::OtherVersion),
    ("{\"nbformat\":4}", NbFault::OtherVersion),
    (
        "{\"nbformat\":4,\"nbformat_minor\":\"5\"}",
        NbFault::OtherVersion,
    ),
    (
        "{\"nbformat\":3,\"nbformat_minor\":5}",
        NbFault::OtherVersion,
    ),
    (
        "{\"nbformat\":4,\"nbformat_minor\":-1}",
        NbFault::OtherVersion,
    ),
];

const NUMBERS: [(NbFault, u8); 6] = [
    (NbFault::NotJson, 1),
    (NbFault::BadField, 2),
    (NbFault::BadId, 3),
    (NbFault::RepeatedId, 4),
    (NbFault::OtherVersion, 5),
    (NbFault::NotWhole, 6),
];

#[test]
fn refuses_by_number(rt: HostRuntime) -> Result<(), Fail> {
    for (text, fault) in REFUSED {
        assert_eq!(rt; refused(&rt, text), Some(fault));
    }
    let no_cells = "{\"nbformat\":4,\"nbformat_minor\":5}";
    assert_eq!(rt; refused(&rt, no_cells), Some(NbFault::BadField));
    let minor_six = notebook_text(&rt, 6, "")?;
    assert_eq!(rt;
        refused(&rt, minor_six.as_str()),
        Some(NbFault::OtherVersion)
    );
    assert_eq!(rt; refused_cells(&rt, "7")?, Some(NbFault::BadField));
    let not_utf8 = [34, 255, 34];
    let bytes = read_notebook(rt.alloc(), &not_utf8);
    assert!(rt; matches!(&bytes, Err(NbBad::Fault(NbFault::NotJson))));
    for (fault, number) in NUMBERS {
        assert_eq!(rt; number_of(fault), number);
    }
    Ok(())
}

#[test]
fn refuses_numbers_under_equal_keys(rt: HostRuntime) -> Result<(), Fail> {
    let version =
        "{\"cells\":[],\"metadata\":{},\"nbformat\":{\"a\":1.5,\"a\":2},\"nbformat_minor\":5}";
    assert_eq!(rt; refused(&rt, version), Some(NbFault::NotWhole));
    let id = "{\"cell_type\":\"raw\",\"id\":1.5,\"id\":\"a\",\"metadata\":{},\"source\":\"\"}";
    assert_eq!(rt; refused_cells(&rt, id)?, Some(NbFault::NotWhole));
    let metadata =
        "{\"cell_type\":\"raw\",\"id\":\"a\",\"metadata\":{\"n\":-0,\"n\":0},\"source\":\"\"}";
    assert_eq!(rt; refused_cells(&rt, metadata)?, Some(NbFault::NotWhole));
    let whole = "{\"cell_type\":\"raw\",\"id\":1,\"id\":\"a\",\"metadata\":{},\"source\":\"\"}";
    assert_eq!(rt; refused_cells(&rt, whole)?, None);
    Ok(())
}

const BAD_ID: &str = "{\"cell_type\":\"raw\",\"id\":\"a b\",\"metadata\":{},\"source\":\"\"}";

const GOOD: &str = "{\"cell_type\":\"raw\",\"id\":\"a\",\"metadata\":{},\"source\":\"\"}";

const NO_SOURCE: &str = "{\"cell_type\":\"raw\",\"id\":\"b\",\"metadata\":{}}";

const NO_ID: &str = "{\"cell_type\":\"raw\",\"metadata\":{},\"source\":\"\"}";

const FRACTION: &str =
    "{\"cell_type\":\"raw\",\"id\":\"c\",\"metadata\":{\"n\":1.5},\"source\":\"\"}";

/// A minor version, cells, and the fault that comes first, if there is one.
const FIRST: [(u32, &[&str], Option<NbFault>); 8] = [
    (5, &[GOOD], None),
    (5, &[BAD_ID], Some(NbFault::BadId)),
    (5, &[GOOD, GOOD], Some(NbFault::RepeatedId)),
    (5, &[GOOD, GOOD, BAD_ID], Some(NbFault::BadId)),
    (5, &[GOOD, GOOD, BAD_ID, NO_SOURCE], Some(NbFault::BadField)),
    (5, &[GOOD, GOOD, BAD_ID, NO_ID], Some(NbFault::BadField)),
    (
        6,
        &[GOOD, GOOD, BAD_ID, NO_SOURCE, FRACTION],
        Some(NbFault::NotWhole),
    ),
    (4, &[FRACTION], Some(NbFault::NotWhole)),
];

/// Texts with a comma between each two.
pub(crate) fn joined(rt: &HostRuntime, texts: &[&str]) -> Result<String, Fail> {
    let mut all = String::new(rt.alloc());
    for text in texts {
        if !all.is_empty() {
            all.push(',')?;
        }
        all.push_str(*text)?;
    }
    Ok(all)
}

#[test]
fn a_bad_field_comes_before_a_bad_id(rt: HostRuntime) -> Result<(), Fail> {
    for (minor, cells, fault) in FIRST {
        let text = notebook_text(&rt, minor, joined(&rt, cells)?.as_str())?;
        assert_eq!(rt; refused(&rt, text.as_str()), fault);
    }
    Ok(())
}

#[test]
fn raises_older_notebooks(rt: HostRuntime) -> Result<(), Fail> {
    let none = "{\"cell_type\":\"markdown\",\"metadata\":{},\"source\":\"\"}";
    let first = "{\"cell_type\":\"markdown\",\"id\":\"run-1\",\"metadata\":{},\"source\":\"\"}";
    let cells = format!(in rt.alloc(); "{none},{first},{none}")?;
    let text = notebook_text(&rt, 4, cells.as_str())?;
    let notebook = read_notebook(rt.alloc(), text.as_bytes())?;
    let cells = notebook.cells.as_slice();
    assert_eq!(rt; cells.len(), 3);
    assert_eq!(rt; cells[0].id.as_str(), "run-2");
    assert_eq!(rt; cells[1].id.as_str(), "run-1");
    assert_eq!(rt; cells[2].id.as_str(), "run-3");
    let other = "{\"cell_type\":\"markdown\",\"id\":7,\"metadata\":{},\"source\":\"\"}";
    let text = notebook_text(&rt, 0, other)?;
    assert_eq!(rt; refused(&rt, text.as_str()), Some(NbFault::BadField));
    Ok(())
}

/// A code cell with metadata, an output that is kept as it is, and an error with a field that has no meaning; and a raw cell
/// with attachments and such a field.
pub(crate) const NAMED: [&str; 2] = [
    "{\"cell_type\":\"code\",\"id\":\"a\",\"metadata\":{\"k\":-1},\"source\":\"\",\"execution_count\":7,\"outputs\":[{\"data\":{\"text/plain\":\"x\"},\"metadata\":{},\"output_type\":\"display_data\",\"z\":[1,{}]},{\"ename\":\"Trap\",\"evalue\":\"v\",\"output_type\":\"error\",\"traceback\":[\"Trap\",\"v\"],\"more\":1}]}",
    "{\"attachments\":{\"p.png\":{\"image/png\":\"AA==\"}},\"cell_type\":\"raw\",\"id\":\"b\",\"metadata\":{},\"source\":\"x\",\"more\":2}",
];

/// The same as it is written: an output of another kind with all its fields, else those that have a name.
pub(crate) const NAMED_AGAIN: &str = "{
  \"cells\": [
    {
      \"cell_type\": \"code\",
      \"execution_count\": 7,
      \"id\": \"a\",
      \"metadata\": {
        \"k\": -1
      },
      \"outputs\": [
        {
          \"data\": {
            \"text/plain\": \"x\"
          },
          \"metadata\": {},
          \"output_type\": \"display_data\",
          \"z\": [
            1,
            {}
          ]
        },
        {
          \"ename\": \"Trap\",
          \"evalue\": \"v\",
          \"output_type\": \"error\",
          \"traceback\": [
            \"Trap\",
            \"v\"
          ]
        }
      ],
      \"source\": []
    },
    {
      \"attachments\": {
        \"p.png\": {
          \"image/png\": \"AA==\"
        }
      },
      \"cell_type\": \"raw\",
      \"id\": \"b\",
      \"metadata\": {},
      \"source\": [
        \"x\"
      ]
    }
  ],
  \"metadata\": {},
  \"nbformat\": 4,
  \"nbformat_minor\": 5
}
";

#[test]
fn keeps_what_has_a_name(rt: HostRuntime) -> Result<(), Fail> {
    let text = notebook_text(&rt, 5, joined(&rt, &NAMED)?.as_str())?;
    assert_eq!(rt; again(&rt, text.as_str())?.as_str(), NAMED_AGAIN);
    assert_eq!(rt; again(&rt, NAMED_AGAIN)?.as_str(), NAMED_AGAIN);
    Ok(())
}

/// Which of the kinds that a run leaves these outputs are.
#[test]
fn reads_outputs_by_kind(rt: HostRuntime) -> Result<(), Fail> {
    let notebook = read_notebook(rt.alloc(), NAMED_AGAIN.as_bytes())?;
    let content = notebook.cells.as_slice().first().map(|cell| &cell.content);
    let is_read = match content {
        Some(Content::Code(execution)) => matches!(
            execution.outputs.as_slice(),
            [Output::Kept(_), Output::Error { .. }]
        ),
        _ => false,
    };
    assert!(rt; is_read);
    Ok(())
}

#[test]
fn copies_what_a_run_left(rt: HostRuntime) -> Result<(), Fail> {
    let mut cell = Cell::code(rt.alloc(), "a", "x", Some(Whole::from_u64(7)))?;
    if let Content::Code(execution) = &mut cell.content {
        execution
            .outputs
            .push(Output::stream(rt.alloc(), "stdout", "42")?)?;
        execution
            .outputs
            .push(Output::error(rt.alloc(), "Trap", "v", "Trap: v")?)?;
        let copy = execution.copy(rt.alloc())?;
        assert!(rt; copy.execution_count.is_some());
        let outputs = copy.outputs.as_slice();
        assert_eq!(rt; outputs.len(), 2);
        assert!(rt; matches!(&outputs[0], Output::Stream { .. }));
        assert!(rt; matches!(outputs[1].copy(rt.alloc())?, Output::Error { .. }));
    } else {
        assert!(rt; false);
    }
    Ok(())
}

#[test]
fn finds_names(rt: HostRuntime) -> Result<(), Fail> {
    let mut names = Names::empty(rt.alloc());
    assert!(rt; names.add(rt.alloc(), "a")?);
    assert!(rt; names.contains("a"));
    assert!(rt; !names.contains("b"));
    Ok(())
}

#[test]
fn tells_allowed_ids(rt: HostRuntime) -> Result<(), Fail> {
    assert!(rt; is_allowed_id("aZ09-_"));
    assert!(rt; !is_allowed_id(""));
    assert!(rt; !is_allowed_id("a.b"));
    let mut long = String::new(rt.alloc());
    for _ in 0..64 {
        long.push('a')?;
    }
    assert!(rt; is_allowed_id(long.as_str()));
    long.push('a')?;
    assert!(rt; !is_allowed_id(long.as_str()));
    Ok(())
}

#[test]
fn lists_give_back_their_things(rt: HostRuntime) -> Result<(), Fail> {
    let mut texts = Vec::new(rt.alloc());
    texts.push(Text::from_str(rt.alloc(), "a")?)?;
    let mut listed = Listed::new(texts);
    let before = listed.as_slice().len();
    assert_eq!(rt; before, 1);
    let other = Text::from_str(rt.alloc(), "b")?;
    assert_eq!(rt; listed.replace(0, other).as_str(), "a");
    assert_eq!(rt; listed.into_vec().len(), 1);
    let error = Output::error(rt.alloc(), "Trap", "v", "Trap: v")?;
    if let Output::Error { traceback, .. } = &error {
        assert_eq!(rt; traceback.as_slice().len(), 1);
    } else {
        assert!(rt; false);
    }
    assert_eq!(rt; Json::empty(rt.alloc()).write(rt.alloc())?.as_str(), "{}");
    Ok(())
}
