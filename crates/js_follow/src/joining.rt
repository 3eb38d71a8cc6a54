//! The notebook that comes of a change that somebody else made in a recorder's file.
ghost use Rattle.std.specs.Prelude.{◌≡◌, ◌≤◌, ◌++◌, ℕ, List, map, filter, IfOk};
ghost use Rattle.std.specs.Option.{option_copied};
ghost use Rattle.serde_json.specs.Data.{depth};
ghost use Rattle.serde_json.specs.Read.{max_depth};
ghost use Rattle.nb_doc.specs.Documents.{IsDocument, ids};
ghost use Rattle.nb_doc.specs.Ids.{is_among};
ghost use Rattle.nb_doc.specs.Writing.{notebook_form};
ghost use Rattle.js_follow.specs.Joining as spec;

use json_form::{Json, Text};
use nb_doc::{Cell, Content, Execution, Listed, Names, Notebook};
use std::alloc::{AllocError, Global};

// ---- a cell that they have

/// The cell of that id.
fn cell_at<'c>(cells: &'c [Cell], id: &str) -> Option<&'c Cell>
    ensures { option_copied result ≡ spec.cell_at id.now cells.now }
{
    cells.iter().find(|cell| cell.id.as_str() == id)
}

fn has_count(cell: Option<&Cell>) -> bool
    ensures { result ≡ spec.has_count (spec.run_at (option_copied cell.entry)) }
{
    match cell {
        None => false,
        Some(cell) => match &cell.content {
            Content::Code(execution) => execution.execution_count.is_some(),
            _ => false,
        },
    }
}

/// What the run of a cell left.
fn run_at(alloc: Global, cell: Option<&Cell>) -> Result<Execution, AllocError>
    ensures { IfOk result (λ e. e ≡ spec.run_at (option_copied cell.entry)) }
{
    if let Some(cell) = cell {
        if let Content::Code(execution) = &cell.content {
            return execution.copy(alloc);
        }
    }
    Ok(Execution {
        execution_count: None,
        outputs: Listed::empty(alloc),
    })
}

fn joint_run(
    alloc: Global,
    known: Option<&Cell>,
    own: Option<&Cell>,
    theirs: Execution,
) -> Result<Execution, AllocError>
    ensures { IfOk result (λ e. e ≡ spec.joint_run (option_copied known.entry) (option_copied own.entry) theirs) }
{
    if theirs.execution_count.is_none() && !has_count(known) && has_count(own) {
        run_at(alloc, own)
    } else {
        Ok(theirs)
    }
}

fn joint_content(
    alloc: Global,
    known: Option<&Cell>,
    own: Option<&Cell>,
    content: Content,
) -> Result<Content, AllocError>
    ensures { IfOk result (λ c. c ≡ spec.joint_content (option_copied known.entry) (option_copied own.entry) content) }
{
    match content {
        Content::Code(theirs) => Ok(Content::Code(joint_run(alloc, known, own, theirs)?)),
        other => Ok(other),
    }
}

fn joint_source(known: Option<&Cell>, own: Option<&Cell>, theirs: Text) -> Result<Text, AllocError>
    ensures { IfOk result (λ t. t ≡ spec.joint_source (option_copied known.entry) (option_copied own.entry) theirs) }
{
    match (known, own) {
        (Some(known), Some(own)) => if theirs.as_str() == known.source.as_str() {
            own.source.copy()
        } else {
            Ok(theirs)
        },
        _ => Ok(theirs),
    }
}

fn joint_cell(alloc: Global, known: &[Cell], own: &[Cell], cell: Cell) -> Result<Cell, AllocError>
    ensures { IfOk result (λ c. c ≡ spec.joint_cell known.now own.now cell) }
{
    let Cell {
        id,
        metadata,
        source,
        content,
    } = cell;
    let known = cell_at(known, id.as_str());
    let own = cell_at(own, id.as_str());
    let source = joint_source(known, own, source)?;
    let content = joint_content(alloc, known, own, content)?;
    Ok(Cell {
        id,
        metadata,
        source,
        content,
    })
}

/// Their cells, with what is newer in the recorder's.
fn their_cells(
    alloc: Global,
    known: &[Cell],
    own: &[Cell],
    cells: Listed<Cell>,
) -> Result<Vec<Cell>, AllocError>
    ensures { IfOk result (λ joint. joint.items ≡ map (spec.joint_cell known.now own.now) cells) }
{
    let mut joint = Vec::with_capacity(alloc, cells.as_slice().len())?;
    for cell in cells.into_vec() {
        let kept = joint_cell(alloc, known, own, cell)?;
        joint.push(kept)?;
    }
    Ok(joint)
}

// ---- newer cells

fn attachments_copy(attachments: &Option<Json>) -> Result<Option<Json>, AllocError>
    ensures { IfOk result (λ copy. copy ≡ attachments.now) }
{
    match attachments {
        None => Ok(None),
        Some(json) => Ok(Some(json.copy()?)),
    }
}

fn content_copy(alloc: Global, content: &Content) -> Result<Content, AllocError>
    ensures { IfOk result (λ copy. copy ≡ content.now) }
{
    match content {
        Content::Code(execution) => Ok(Content::Code(execution.copy(alloc)?)),
        Content::Markdown { attachments } => Ok(Content::Markdown {
            attachments: attachments_copy(attachments)?,
        }),
        Content::Raw { attachments } => Ok(Content::Raw {
            attachments: attachments_copy(attachments)?,
        }),
    }
}

fn cell_copy(alloc: Global, cell: &Cell) -> Result<Cell, AllocError>
    ensures { IfOk result (λ copy. copy ≡ cell.now) }
{
    Ok(Cell {
        id: cell.id.copy()?,
        metadata: cell.metadata.copy()?,
        source: cell.source.copy()?,
        content: content_copy(alloc, &cell.content)?,
    })
}

/// The ids of cells.
fn ids_of(alloc: Global, cells: &[Cell]) -> Result<Names, AllocError>
    ensures { IfOk result (λ names. (id : List ℕ) → is_among names id ≡ is_among (ids cells.now) id) }
{
    let mut names = Names::empty(alloc);
    for cell in cells {
        names.add(alloc, cell.id.as_str())?;
    }
    Ok(names)
}

fn is_newer(known: &Names, theirs: &Names, cell: &Cell) -> bool
    ensures { result ≡ spec.is_newer known.now theirs.now cell.now }
{
    let id = cell.id.as_str();
    !known.contains(id) && !theirs.contains(id)
}

/// Appends the newer ones of the recorder's cells.
fn add_newer(
    alloc: Global,
    known: &Names,
    theirs: &Names,
    own: &[Cell],
    joint: Vec<Cell>,
) -> Result<Vec<Cell>, AllocError>
    ensures { IfOk result (λ all. all.items ≡ joint.items ++ filter (spec.is_newer known.now theirs.now) own.now) }
{
    let mut joint = joint;
    for cell in own {
        if is_newer(known, theirs, cell) {
            let copy = cell_copy(alloc, cell)?;
            joint.push(copy)?;
        }
    }
    Ok(joint)
}

/// Their notebook, with what is newer in the recorder's own than what was known.
///
/// # Errors
/// Where there is no memory.
pub(crate) fn joint(
    alloc: Global,
    known: &Notebook,
    own: &Notebook,
    theirs: Notebook,
) -> Result<Notebook, AllocError>
    requires own_document { IsDocument own.now }
    requires own_shallow { depth (notebook_form own.now) ≤ max_depth }
    requires document { IsDocument theirs }
    requires shallow { depth (notebook_form theirs) ≤ max_depth }
    ensures value { IfOk result (λ n. n ≡ spec.joint known.now own.now theirs) }
    ensures document { IfOk result IsDocument }
    ensures shallow { IfOk result (λ n. depth (notebook_form n) ≤ max_depth) }
{
    let Notebook { cells, metadata } = theirs;
    let known_ids = ids_of(alloc, known.cells.as_slice())?;
    let their_ids = ids_of(alloc, cells.as_slice())?;
    let own = own.cells.as_slice();
    let cells = their_cells(alloc, known.cells.as_slice(), own, cells)?;
    let cells = add_newer(alloc, &known_ids, &their_ids, own, cells)?;
    Ok(Notebook {
        cells: Listed::new(cells),
        metadata,
    })
}
