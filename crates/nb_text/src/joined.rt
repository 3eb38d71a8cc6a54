//! Whether neighbouring streams of one name are joined already.

ghost use Rattle.std.specs.Prelude.{◌≡◌, IsTrue};
ghost use Rattle.std.specs.List.{AllByRecursion};
ghost use Rattle.nb_doc.specs.Writing.{joined};
ghost use Rattle.nb_text.specs.Joined.{IsOther, AreApart, MayFollow, IsJoinedContent, IsJoinedCell, IsJoined};

use nb_doc::{Cell, Content, Notebook, Output};

pub(crate) fn is_joined(notebook: &Notebook) -> bool
    ensures { IsTrue result → IsJoined notebook.now }
{
    are_joined_cells(notebook.cells.as_slice())
}

fn are_joined_cells(cells: &[Cell]) -> bool
    ensures { IsTrue result → AllByRecursion IsJoinedCell cells.now }
{
    for cell in cells {
        if !is_joined_content(&cell.content) {
            return false;
        }
    }
    true
}

fn is_joined_content(content: &Content) -> bool
    ensures { IsTrue result → IsJoinedContent content.now }
{
    match content {
        Content::Code(execution) => are_joined(execution.outputs.as_slice()),
        _ => true,
    }
}

fn are_joined(outputs: &[Output]) -> bool
    ensures { IsTrue result → joined outputs.now ≡ outputs.now }
{
    let mut last = None;
    for output in outputs {
        if !may_follow(last, output) {
            return false;
        }
        last = Some(output);
    }
    true
}

/// Whether an output stays apart from the last one.
fn may_follow(last: Option<&Output>, output: &Output) -> bool
    ensures { IsTrue result → MayFollow last.entry output.now }
{
    match last {
        None => true,
        Some(before) => are_apart(before, output),
    }
}

/// Two outputs that are no streams of one name.
fn are_apart(first: &Output, second: &Output) -> bool
    ensures { IsTrue result → AreApart first.now second.now }
{
    match first {
        Output::Stream { name, .. } => is_other(name.as_str(), second),
        _ => true,
    }
}

fn is_other(name: &str, output: &Output) -> bool
    ensures { IsTrue result → IsOther name.now output.now }
{
    match output {
        Output::Stream { name: own, .. } => name != own.as_str(),
        _ => true,
    }
}
