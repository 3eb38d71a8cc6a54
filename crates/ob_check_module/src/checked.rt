//! A module that was checked.

ghost use Rattle.std.specs.Prelude.{◌≡◌};

use ob_base::{Items, Text};
use ob_mean::TypedModule;
use ob_types::{Interface, Key};
use std::marker::Model;

/// A module that is imported: its name, and the key that it has.
#[derive(Drop)]
pub struct Imported {
    pub name: Text,
    pub key: Key,
}

/// A module that was checked: its typed tree, what it shows to others, and the modules that it imports, but for In and Out, in
/// their order and with the keys that they had.
#[derive(Drop)]
pub struct Checked {
    tree: TypedModule,
    interface: Interface,
    imports: Items<Imported>,
}

impl Model for Checked {
    ghost use Rattle.std.specs.Coded.{codes};
    ghost use Rattle.ob_types.specs.contracts.structure.ObType as structure;
    ghost use Rattle.ob_mean.specs.contracts.expression.TypedExpr as expression;
    ghost use Rattle.ob_mean.specs.contracts.shape.Shape as shape;
    ghost use Rattle.ob_mean.specs.contracts.statement.TypedStatement as statement;
    ghost use Rattle.ob_check_module.specs.CheckedTree.{CheckedTree};

    ghost Value = { CheckedTree };

    ghost coded = { Prim.hlevel (codes, structure.the_row.coded, expression.the_row.coded, shape.the_row.coded, statement.the_row.coded) };

    ghost view = { λ c. record { tree = c.tree; interface = c.interface; imports = c.imports } };
}

impl Checked {
    /// A checked module of these parts.
    pub(crate) fn new(tree: TypedModule, interface: Interface, imports: Items<Imported>) -> Checked
        ensures { result ≡ record { tree = tree; interface = interface; imports = imports } }
    {
        Checked {
            tree,
            interface,
            imports,
        }
    }

    /// The typed tree.
    pub fn tree(&self) -> &TypedModule
        ensures { result.now ≡ self.now.tree }
    {
        &self.tree
    }

    /// What the module shows to others. Its key is the text of this.
    pub fn interface(&self) -> &Interface
        ensures { result.now ≡ self.now.interface }
    {
        &self.interface
    }

    /// The imported modules, in the order of the imports.
    pub fn imports(&self) -> &[Imported]
        ensures { result.now ≡ self.now.imports }
    {
        self.imports.as_slice()
    }

    /// The typed tree, what the module shows to others, and the imported modules in the order of the imports.
    pub fn into_parts(self) -> (TypedModule, Interface, Items<Imported>)
        ensures tree { result.0 ≡ self.tree }
        ensures interface { result.1 ≡ self.interface }
        ensures imports { result.2 ≡ self.imports }
    {
        (self.tree, self.interface, self.imports)
    }
}
