//! A module that can be loaded.

ghost use Rattle.std.specs.Prelude.{◌≡◌};

use ob_base::{Items, Text};
use ob_mean::TypedModule;
use ob_types::{Interface, Key};
use std::marker::Model;

/// An import: the name of the module, and the key that it had when its client was checked. In and Out are no imports.
#[derive(Drop)]
pub struct KeyedImport {
    name: Text,
    key: Key,
}

impl Model for KeyedImport {
    ghost use Rattle.ob_session.specs.Session.{Import};

    ghost Value = { Import };

    ghost view = { λ i. record { name = i.name; key = i.key } };
}

impl KeyedImport {
    /// An import of this name, with this key.
    pub fn new(name: Text, key: Key) -> KeyedImport
        ensures { result ≡ record { name = name; key = key } }
    {
        KeyedImport { name, key }
    }

    /// The name of the module.
    pub fn name(&self) -> &Text
        ensures { result.now ≡ self.now.name }
    {
        &self.name
    }

    /// The recorded key.
    pub fn key(&self) -> &Key
        ensures { result.now ≡ self.now.key }
    {
        &self.key
    }
}

/// A checked module: its interface, its typed tree, and its imports in their order.
#[derive(Drop)]
pub struct SessionModule {
    interface: Interface,
    tree: TypedModule,
    imports: Items<KeyedImport>,
}

impl Model for SessionModule {
    ghost use Rattle.std.specs.Coded.{codes};
    ghost use Rattle.ob_types.specs.contracts.structure.ObType as structure;
    ghost use Rattle.ob_mean.specs.contracts.expression.TypedExpr as expression;
    ghost use Rattle.ob_mean.specs.contracts.shape.Shape as shape;
    ghost use Rattle.ob_mean.specs.contracts.statement.TypedStatement as statement;
    ghost use Rattle.ob_session.specs.Session.{Module};

    ghost Value = { Module };

    ghost coded = { Prim.hlevel (codes, structure.the_row.coded, expression.the_row.coded, shape.the_row.coded, statement.the_row.coded) };

    ghost view = { λ m. record { interface = m.interface; tree = m.tree; imports = m.imports } };
}

impl SessionModule {
    /// A module of these parts.
    pub fn new(
        interface: Interface,
        tree: TypedModule,
        imports: Items<KeyedImport>,
    ) -> SessionModule
        ensures { result ≡ record { interface = interface; tree = tree; imports = imports } }
    {
        SessionModule {
            interface,
            tree,
            imports,
        }
    }

    /// What the module shows to others. Its key is the text of this.
    pub fn interface(&self) -> &Interface
        ensures { result.now ≡ self.now.interface }
    {
        &self.interface
    }

    /// The typed tree.
    pub fn tree(&self) -> &TypedModule
        ensures { result.now ≡ self.now.tree }
    {
        &self.tree
    }

    /// The imports, in their order.
    pub fn imports(&self) -> &[KeyedImport]
        ensures { result.now ≡ self.now.imports }
    {
        self.imports.as_slice()
    }
}
