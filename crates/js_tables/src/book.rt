//! A notebook that was read.
ghost use Rattle.std.specs.Prelude.{◌≡◌, ◌≤◌, IfOk};
ghost use Rattle.serde_json.specs.Data.{depth};
ghost use Rattle.serde_json.specs.Read.{max_depth};
ghost use Rattle.nb_doc.specs.Building.{empty_notebook};
ghost use Rattle.nb_doc.specs.Documents.{IsDocument};
ghost use Rattle.nb_doc.specs.Writing.{notebook_form, notebook_text};

use nb_doc::Notebook;
use nb_text::write_notebook;
use std::alloc::{AllocError, Global};
use std::marker::Model;

/// A notebook as one that was read is: a document of 4.5 that nests no deeper than JSON is read. So a recorder may keep it. Its
/// text may have been written already.
#[derive(Drop)]
pub struct ReadNotebook {
    notebook: Notebook,
    text: Option<Vec<u8>>,
}

impl Model for ReadNotebook {
    ghost use Rattle.std.specs.Coded.{codes};
    ghost use Rattle.json_form.specs.contracts.kept.Json as json;
    ghost use Rattle.std.specs.Prelude.{◌≡◌, ◌≤◌, IfSome};
    ghost use Rattle.serde_json.specs.Data.{depth};
    ghost use Rattle.serde_json.specs.Read.{max_depth};
    ghost use Rattle.nb_doc.specs.declared.notebook.Notebook.{Notebook};
    ghost use Rattle.nb_doc.specs.Documents.{IsDocument};
    ghost use Rattle.nb_doc.specs.Writing.{notebook_form, notebook_text};

    ghost Value = { Notebook };

    ghost coded = { Prim.hlevel (codes, json.the_row.coded) };

    ghost view = { λ read. read.notebook };

    ghost invariant = { λ read. IsDocument read.notebook × (depth (notebook_form read.notebook) ≤ max_depth)
        × IfSome read.text (λ text. text.items ≡ notebook_text read.notebook) };
}

impl ReadNotebook {
    /// A notebook that was read.
    pub fn new(notebook: Notebook) -> ReadNotebook
        requires document { IsDocument notebook }
        requires shallow { depth (notebook_form notebook) ≤ max_depth }
        ensures { result ≡ notebook }
    {
        ReadNotebook {
            notebook,
            text: None,
        }
    }

    /// One without cells.
    pub fn empty(alloc: Global) -> ReadNotebook
        ensures { result ≡ empty_notebook }
    {
        ReadNotebook {
            notebook: Notebook::empty(alloc),
            text: None,
        }
    }

    /// The same notebook, whose text has been written.
    pub fn with_text(self, alloc: Global) -> Result<ReadNotebook, AllocError>
        ensures { IfOk result (λ book. book ≡ self) }
    {
        let ReadNotebook { notebook, text: _ } = self;
        let text = write_notebook(alloc, &notebook)?;
        Ok(ReadNotebook {
            notebook,
            text: Some(text),
        })
    }

    /// The text of the notebook.
    pub fn into_text(self, alloc: Global) -> Result<Vec<u8>, AllocError>
        ensures { IfOk result (λ text. text.items ≡ notebook_text self) }
    {
        let ReadNotebook { notebook, text } = self;
        match text {
            Some(text) => Ok(text),
            None => write_notebook(alloc, &notebook),
        }
    }

    /// The notebook.
    pub fn notebook(&self) -> &Notebook
        ensures { result.now ≡ self.now }
    {
        &self.notebook
    }

    /// The notebook, which is such a document.
    pub fn into_notebook(self) -> Notebook
        ensures value { result ≡ self }
        ensures document { IsDocument result }
        ensures shallow { depth (notebook_form result) ≤ max_depth }
    {
        self.notebook
    }
}
