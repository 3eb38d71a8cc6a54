//! The modules that are loaded.

ghost use Rattle.std.specs.Prelude.{◌≡◌, [], IfOk, option_copied};
ghost use Rattle.ob_session.specs.Session as session;
ghost use Rattle.ob_link.specs.Seen.{all_seen};

use crate::module::{KeyedImport, SessionModule};
use crate::table::Table;
use ob_base::Text;
use ob_check_scope::Imports;
use std::alloc::{AllocError, Global};
use std::marker::Model;

/// The modules that are loaded, in the order in which their names came. Contracts see the list of them. What their imports
/// link to is found once, where a module is loaded.
#[derive(Drop)]
pub struct Modules {
    pub(crate) table: Table,
    /// For each module the fault behind its imports, through chains of as many imports as there are modules.
    pub(crate) faults: Vec<Option<Text>>,
    /// The modules as the rules see them where none reaches the module that is judged.
    pub(crate) loaded: Imports,
}

impl Model for Modules {
    ghost use Rattle.std.specs.Prelude.{◌≡◌, List, length};
    ghost use Rattle.std.specs.Coded.{codes};
    ghost use Rattle.ob_types.specs.contracts.structure.ObType as structure;
    ghost use Rattle.ob_mean.specs.contracts.expression.TypedExpr as expression;
    ghost use Rattle.ob_mean.specs.contracts.shape.Shape as shape;
    ghost use Rattle.ob_mean.specs.contracts.statement.TypedStatement as statement;
    ghost use Rattle.ob_session.specs.Session.{Module};
    ghost use Rattle.ob_link.specs.Faults.{fault_row};
    ghost use Rattle.ob_link.specs.Seen.{all_seen};

    ghost Value = { List Module };

    ghost coded = { Prim.hlevel (codes, structure.the_row.coded, expression.the_row.coded, shape.the_row.coded, statement.the_row.coded) };

    ghost view = { λ m. m.table };

    ghost invariant = { λ m. (m.faults.items ≡ fault_row m.table (length m.table)) × (m.loaded ≡ all_seen m.table) };
}

impl Modules {
    /// No module.
    pub fn new(alloc: Global) -> Modules
        ensures { result ≡ [] }
    {
        Modules {
            table: Table::new(alloc),
            faults: Vec::new(alloc),
            loaded: Imports::empty(alloc),
        }
    }

    /// The modules, by their numbers.
    pub fn as_slice(&self) -> &[SessionModule]
        ensures { result.now ≡ self.now }
    {
        self.table.as_slice()
    }

    /// The modules as the static rules see them where none of them reaches the module that is judged.
    pub fn loaded(&self) -> &Imports
        ensures { result.now ≡ all_seen self.now }
    {
        &self.loaded
    }

    /// The number of the module of this name; where there is none, how many modules there are.
    pub fn place_of(&self, name: &Text) -> usize
        ensures { result ≡ session.place_of self.now name.now }
    {
        self.table.place_of(name)
    }

    /// The module of this name.
    pub fn find(&self, name: &Text) -> Option<&SessionModule>
        ensures { option_copied result ≡ session.find_module self.now name.now }
    {
        self.table.find(name)
    }

    /// Where what this allocates comes from.
    pub fn alloc(&self) -> Global {
        self.table.alloc()
    }

    /// The number of each imported module, in the order of the imports; where there is none of that name, how many modules
    /// there are.
    ///
    /// # Errors
    ///
    /// Out of memory.
    pub fn numbers(&self, imports: &[KeyedImport]) -> Result<Vec<usize>, AllocError>
        ensures { IfOk result (λ ns. ns.items ≡ session.import_places self.now imports.now) }
    {
        let mut so_far = Vec::new(self.alloc());
        for import in imports {
            so_far.push(self.place_of(import.name()))?;
        }
        Ok(so_far)
    }
}
