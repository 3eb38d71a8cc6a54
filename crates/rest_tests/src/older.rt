//! Notebooks of 4.0 to 4.4, which are raised to 4.5 where they are read.

use crate::plays::{Server, asked, start};
use js_shelf::{Bytes, Item, Shelf};
use std::alloc::Global;
use std::test::Fail;

/// The cells of an older notebook: the second one has an identifier, which the first and the third may not get.
const CELLS: &str =
    r#"{"cell_type":"code","execution_count":3,"metadata":{},"outputs":[],"source":"x\ny"},{"cell_type":"markdown","id":"run-2","metadata":{},"source":""},{"cell_type":"raw","metadata":{},"source":"z"}"#;

/// The text of the notebook of 4.5 that it is read as.
const RAISED: &str =
    "{\n  \"cells\": [\n    {\n      \"cell_type\": \"code\",\n      \"execution_count\": 3,\n      \"id\": \"run-1\",\n      \"metadata\": {},\n      \"outputs\": [],\n      \"source\": [\n        \"x\\n\",\n        \"y\"\n      ]\n    },\n    {\n      \"cell_type\": \"markdown\",\n      \"id\": \"run-2\",\n      \"metadata\": {},\n      \"source\": []\n    },\n    {\n      \"cell_type\": \"raw\",\n      \"id\": \"run-3\",\n      \"metadata\": {},\n      \"source\": [\n        \"z\"\n      ]\n    }\n  ],\n  \"metadata\": {},\n  \"nbformat\": 4,\n  \"nbformat_minor\": 5\n}\n";

/// A notebook of a minor version with these cells.
fn book(alloc: Global, minor: u32, cells: &str) -> Result<String, Fail> {
    Ok(format!(in alloc;
        "{{\"cells\":[{cells}],\"metadata\":{{}},\"nbformat\":4,\"nbformat_minor\":{minor}}}"
    )?)
}

/// A request that puts such a notebook.
fn put(alloc: Global, minor: u32, cells: &str) -> Result<String, Fail> {
    let content = book(alloc, minor, cells)?;
    Ok(format!(in alloc;
        "PUT /api/contents/n.ipynb {{\"content\":{content},\"type\":\"notebook\"}}"
    )?)
}

/// Whether this is the file.
fn is_stored(server: &mut Server, text: &str) -> bool {
    match server.shelf.get("n.ipynb") {
        Ok(Item::File(bytes)) => bytes.as_slice() == text.as_bytes(),
        _ => false,
    }
}

#[test]
fn each_older_version_is_stored_as_the_last(rt: HostRuntime) -> Result<(), Fail> {
    let alloc = rt.alloc();
    for minor in 0..5 {
        let mut server = start(alloc)?;
        let request = put(alloc, minor, CELLS)?;
        let answer = asked(&rt, alloc, &mut server, request.as_str())?;
        assert!(rt; answer.as_str().starts_with("201 Created "), "{minor}");
        assert!(rt; is_stored(&mut server, RAISED), "{minor}");
    }
    Ok(())
}

/// Cells of no notebook, old or new: an identifier with a blank, one that stands twice, one that is no text; no metadata.
const REFUSED: [&str; 4] = [
    r#"{"cell_type":"raw","id":"a b","metadata":{},"source":""}"#,
    r#"{"cell_type":"raw","id":"a","metadata":{},"source":""},{"cell_type":"raw","metadata":{},"source":""},{"cell_type":"raw","id":"a","metadata":{},"source":""}"#,
    r#"{"cell_type":"raw","id":7,"metadata":{},"source":""}"#,
    r#"{"cell_type":"raw","source":""}"#,
];

/// What is refused of an older notebook, and a notebook of 4.5 with cells that have no identifier.
#[test]
fn refusals_of_older_notebooks(rt: HostRuntime) -> Result<(), Fail> {
    let alloc = rt.alloc();
    let mut server = start(alloc)?;
    for cells in REFUSED {
        let request = put(alloc, 4, cells)?;
        let answer = asked(&rt, alloc, &mut server, request.as_str())?;
        assert_eq!(rt; answer.as_str(), "400 Bad Request\n", "{cells}");
    }
    let request = put(alloc, 5, CELLS)?;
    let answer = asked(&rt, alloc, &mut server, request.as_str())?;
    assert_eq!(rt; answer.as_str(), "400 Bad Request\n");
    assert!(rt; server.shelf.get("n.ipynb").is_err());
    Ok(())
}

/// The recorder of a session begins with the raised notebook. The file stays what it was until a save.
#[test]
fn a_session_on_an_older_notebook(rt: HostRuntime) -> Result<(), Fail> {
    let alloc = rt.alloc();
    let mut server = start(alloc)?;
    let text = book(alloc, 2, CELLS)?;
    let bytes = Vec::from_slice(alloc, text.as_bytes())?;
    let written = server.shelf.put("n.ipynb", Item::File(Bytes::from(bytes)));
    assert!(rt; written.is_ok());
    let session = r#"POST /api/sessions {"path":"n.ipynb","type":"notebook"}"#;
    let answer = asked(&rt, alloc, &mut server, session)?;
    assert!(rt; answer.as_str().starts_with("201 Created "));
    assert!(rt; is_stored(&mut server, text.as_str()));
    let kept = server
        .manager
        .tables
        .recordings
        .first()
        .ok_or("a recorder")?;
    assert_eq!(rt; kept.due, false);
    let ids = ["run-1", "run-2", "run-3"];
    for (cell, id) in kept.recorder.notebook().cells.as_slice().iter().zip(ids) {
        assert_eq!(rt; cell.id.as_str(), id);
    }
    assert_eq!(rt; kept.recorder.notebook().cells.as_slice().len(), 3);
    Ok(())
}
