//! The text by which a notebook is shown, written straight from the notebook.
ghost use Rattle.std.specs.Prelude.{◌≡◌, ◌++◌, OnOk, IfOk};
ghost use Rattle.nb_doc.specs.Writing.{notebook_form};
ghost use Rattle.js_tables.specs.Forms.{body_text};
ghost use Rattle.js_contents.specs.Forms as forms;
ghost use Rattle.js_contents.specs.Shown.{place_tokens};

use js_http::Bytes;
use js_tables::About;
use nb_doc::Notebook;
use nb_text::Compact;
use std::alloc::{AllocError, Global};

/// The body of an answer that shows a notebook.
pub(crate) fn notebook_body(
    alloc: Global,
    about: &About,
    notebook: &Notebook,
) -> Result<Bytes, AllocError>
    ensures { IfOk result (λ b. b ≡ body_text (forms.json_form about.now (notebook_form notebook.now))) }
{
    let mut out = Compact::new(alloc);
    out.begin()?;
    out.notebook(alloc, "content", notebook)?;
    out.text("created", about.date.as_str())?;
    out.text("format", "json")?;
    out.text("last_modified", about.date.as_str())?;
    out.null("mimetype")?;
    write_place(&mut out, about)?;
    out.end()?;
    Ok(Bytes::from(out.into_text()))
}

// Its name and place, and that it may be written.
fn write_place(out: &mut Compact, about: &About) -> Result<(), AllocError>
    ensures { OnOk result (out.new ≡ out.old ++ place_tokens about.now) }
{
    out.text("name", about.name.as_str())?;
    out.text("path", about.path.as_str())?;
    out.text("type", about.kind.name())?;
    out.boolean("writable", true)
}
