//! What a cell comes to before it runs.

use ob_base::Items;
use ob_code::checked::Checked;
use ob_link::{Command, LinkFault, SessionModule};
use ob_mean::Face;

/// A module that was compiled, ready to be loaded.
#[derive(Drop)]
pub struct Planned {
    pub module: SessionModule,
    /// What importing modules know of it.
    pub face: Face,
    /// What is known of those that it imports, in the order of the imports.
    pub faces: Items<Face>,
    pub code: Checked,
}

/// What a cell that keeps the rules comes to before it runs.
#[derive(Drop)]
pub enum Plan {
    /// A module that links.
    Module(Planned),
    /// Commands, each of which was found and may run.
    Commands(Vec<Command>),
    /// Why the cell doesn't link.
    Unlinked(LinkFault),
}
