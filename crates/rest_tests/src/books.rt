//! Notebooks that recorders keep.

use crate::plays::{asked, start};
use std::process::Abort;
use std::test::Fail;

const SESSION: &str = r#"POST /api/sessions {"path":"n.ipynb","type":"notebook"}"#;

const PUT: &str =
    r#"PUT /api/contents/n.ipynb {"type":"notebook","content":{"cells":[{"cell_type":"raw","id":"c","metadata":{},"source":"x"}],"metadata":{},"nbformat":4,"nbformat_minor":5}}"#;

/// A put of a recorder's notebook is two looks and one put, whose refusal is the answer. The recorder has the notebook then, and its
/// save is due until one succeeds.
#[test]
fn a_put_is_the_recorders(rt: HostRuntime) -> Result<(), Fail> {
    let alloc = rt.alloc();
    let mut server = start(alloc)?;
    let _ = asked(&rt, alloc, &mut server, SESSION)?;
    server.shelf.fail_at(3);
    let refused = asked(&rt, alloc, &mut server, PUT)?;
    assert_eq!(rt; refused.as_str(), "500 Internal Server Error\n");
    let kept = server
        .manager
        .tables
        .recordings
        .first()
        .ok_or("a recorder")?;
    assert_eq!(rt; kept.recorder.notebook().cells.as_slice().len(), 1);
    assert_eq!(rt; kept.due, true);
    server.shelf.fail_at(4);
    let put = asked(&rt, alloc, &mut server, PUT)?;
    assert_eq!(rt; put.as_str().starts_with("201 Created "), true);
    let kept = server
        .manager
        .tables
        .recordings
        .first()
        .ok_or("a recorder")?;
    assert_eq!(rt; kept.due, false);
    Ok(())
}

/// Where one of the looks before it fails, the recorder has nothing of the put, and no save is due.
#[test]
fn a_put_whose_look_fails(rt: HostRuntime) -> Result<(), Fail> {
    let alloc = rt.alloc();
    for fault in 1..3 {
        let mut server = start(alloc)?;
        let _ = asked(&rt, alloc, &mut server, SESSION)?;
        server.shelf.fail_at(fault);
        let refused = asked(&rt, alloc, &mut server, PUT)?;
        assert_eq!(rt; refused.as_str(), "500 Internal Server Error\n", "{fault}");
        let kept = server
            .manager
            .tables
            .recordings
            .first()
            .ok_or("a recorder")?;
        assert_eq!(rt;
            kept.recorder.notebook().cells.as_slice().len(),
            0,
            "{fault}"
        );
        assert_eq!(rt; kept.due, false, "{fault}");
    }
    Ok(())
}

const PUT_OF_ANOTHER_DATE: &str =
    r#"PUT /api/contents/n.ipynb {"type":"notebook","last_modified":"2001-09-08T01:46:40.123456Z","content":{"cells":[],"metadata":{},"nbformat":4,"nbformat_minor":5}}"#;

/// The recorder's notebook has the date of its last put or save.
#[test]
fn a_put_of_another_date_is_not_the_recorders(rt: HostRuntime) -> Result<(), Fail> {
    let alloc = rt.alloc();
    let mut server = start(alloc)?;
    let _ = asked(&rt, alloc, &mut server, SESSION)?;
    let _ = asked(&rt, alloc, &mut server, PUT)?;
    let refused = asked(&rt, alloc, &mut server, PUT_OF_ANOTHER_DATE)?;
    assert_eq!(rt; refused.as_str(), "409 Conflict\n");
    let kept = server
        .manager
        .tables
        .recordings
        .first()
        .ok_or("a recorder")?;
    assert_eq!(rt; kept.recorder.notebook().cells.as_slice().len(), 1);
    assert_eq!(rt; kept.due, false);
    Ok(())
}

/// The recorder of a file that is deleted goes, and its session stays.
#[test]
fn a_deleted_file_has_no_recorder(rt: HostRuntime) -> Result<(), Fail> {
    let alloc = rt.alloc();
    let mut server = start(alloc)?;
    let _ = asked(&rt, alloc, &mut server, SESSION)?;
    let _ = asked(&rt, alloc, &mut server, PUT)?;
    let deleted = asked(&rt, alloc, &mut server, "DELETE /api/contents/n.ipynb")?;
    assert_eq!(rt; deleted.as_str(), "204 No Content\n");
    assert_eq!(rt; server.manager.tables.recordings.len(), 0);
    assert_eq!(rt; server.manager.tables.kernels.len(), 1);
    Ok(())
}
