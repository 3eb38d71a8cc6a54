//! The plans of requests on contents.
ghost use Rattle.std.specs.Prelude.{◌≡◌};
ghost use Rattle.js_http.specs.Targets.{segments_of};
ghost use Rattle.js_shelf.specs.Shelves.{Tells};
ghost use Rattle.js_tables.specs.Tables.{rows};
ghost use Rattle.js_rest.specs.Answers.{path_of};
ghost use Rattle.js_rest.specs.Contents as spec;
ghost use Rattle.js_rest.specs.Parts.{IsPrepared};

use crate::inputs::Inputs;
use crate::parts::Prepared;
use js_contents::{Aim, planned, put_plan, read_aim, remove_plan};
use js_http::{Bytes, ErrorStatus, Method};
use js_names::{rename_plan, untitled_plan};
use js_shelf::Shelf;
use js_tables::{Given, Plan, Refusal, Tables};
use std::alloc::Global;

/// The plan of a PUT of which this was made.
#[tactic(auto, using(crate::proofs::Telling::tells_same))]
fn prepared_plan<S: Shelf>(
    alloc: Global,
    tables: &Tables,
    shelf: &mut S,
    given: &Given,
    prepared: Prepared,
) -> Result<Plan, Refusal>
    ensures { Tells (S.contents shelf.old) (S.contents shelf.new) (spec.PutsPrepared (rows tables.now) given.now prepared result) }
{
    match prepared {
        Prepared::Put(made) => match made {
            Ok(ready) => put_plan(alloc, tables, shelf, given, ready),
            Err(refusal) => Err(refusal),
        },
        Prepared::Other => Err(Refusal::Failed),
    }
}

/// What is to be done for a request on contents, by the segments of its path, whose first three are empty, `api` and `contents`.
/// The shelf is read and not changed.
pub(crate) fn contents_aim<S: Shelf>(
    inputs: Inputs<'_>,
    shelf: &mut S,
    prepared: Prepared,
    segments: &[Bytes],
) -> Result<Aim, Refusal>
    requires segments { segments.now ≡ segments_of (path_of inputs.request.now) }
    requires prepared { IsPrepared inputs.request.now prepared }
    ensures { Tells (S.contents shelf.old) (S.contents shelf.new) (spec.Aims (rows inputs.entry.tables.now) inputs.entry.given.now inputs.entry.request.now segments.now result) }
{
    let Inputs {
        alloc,
        tables,
        given,
        request,
    } = inputs;
    match request.method {
        Method::Get => read_aim(alloc, tables, shelf, request, segments),
        Method::Put => planned(prepared_plan(alloc, tables, shelf, given, prepared)),
        Method::Delete => planned(remove_plan(alloc, segments)),
        Method::Post => planned(untitled_plan(
            alloc,
            tables,
            shelf,
            given,
            request.body.as_slice(),
            segments,
        )),
        Method::Patch => planned(rename_plan(
            alloc,
            tables,
            shelf,
            request.body.as_slice(),
            segments,
        )),
        Method::Other => Err(Refusal::Status(ErrorStatus::MethodNotAllowed)),
    }
}
