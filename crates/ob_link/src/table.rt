//! Loaded modules, and their places by their names.

ghost use Rattle.std.specs.Prelude.{◌≡◌, [], OnOk, OnErr, Some, None, option_copied, slice_get};
ghost use Rattle.ob_session.specs.Session as session;
ghost use Rattle.ob_link.specs.Exchange.{EndsNew, without_last};
ghost use Rattle.ob_link.specs.Places as spec;

use crate::module::SessionModule;
use ob_base::Text;
use std::alloc::{AllocError, Global};
use std::collections::HashMap;
use std::marker::Model;
use std::mem;

/// Modules, in the order in which their names came. Contracts see the list of them. A look-up by name goes through a map.
#[derive(Drop)]
pub(crate) struct Table {
    modules: Vec<SessionModule>,
    places: HashMap<Vec<u8>, usize>,
    alloc: Global,
}

impl Model for Table {
    ghost use Rattle.std.specs.Prelude.{◌≡◌, List};
    ghost use Rattle.std.specs.Coded.{codes};
    ghost use Rattle.ob_types.specs.contracts.structure.ObType as structure;
    ghost use Rattle.ob_mean.specs.contracts.expression.TypedExpr as expression;
    ghost use Rattle.ob_mean.specs.contracts.shape.Shape as shape;
    ghost use Rattle.ob_mean.specs.contracts.statement.TypedStatement as statement;
    ghost use Rattle.ob_session.specs.Session.{Module};
    ghost use Rattle.ob_link.specs.Places.{ArePlaces};

    ghost Value = { List Module };

    ghost coded = { Prim.hlevel (codes, structure.the_row.coded, expression.the_row.coded, shape.the_row.coded, statement.the_row.coded) };

    ghost view = { λ m. m.modules.items };

    ghost invariant = { λ m. ArePlaces m.places m.modules.items };
}

impl Table {
    /// No module.
    pub fn new(alloc: Global) -> Table
        ensures { result ≡ [] }
    {
        Table {
            modules: Vec::new(alloc),
            places: HashMap::new(alloc),
            alloc,
        }
    }

    /// The modules, by their numbers.
    pub fn as_slice(&self) -> &[SessionModule]
        ensures { result.now ≡ self.now }
    {
        self.modules.as_slice()
    }

    /// The number of the module of this name.
    pub(crate) fn number_of(&self, name: &Text) -> Option<usize>
        ensures { result ≡ spec.number_in self.now name.now }
    {
        match self.places.get(name.as_slice()) {
            Some(number) => Some(*number),
            None => None,
        }
    }

    /// The number of the module of this name; where there is none, how many modules there are.
    pub fn place_of(&self, name: &Text) -> usize
        ensures { result ≡ session.place_of self.now name.now }
    {
        match self.number_of(name) {
            Some(number) => number,
            None => self.modules.len(),
        }
    }

    /// The module of this name.
    pub fn find(&self, name: &Text) -> Option<&SessionModule>
        ensures { option_copied result ≡ session.find_module self.now name.now }
    {
        match self.number_of(name) {
            Some(number) => self.module_at(number),
            None => None,
        }
    }

    /// The module of this number.
    fn module_at(&self, number: usize) -> Option<&SessionModule>
        ensures { option_copied result ≡ slice_get self.now number }
    {
        // By cases, as `option_copied` is.
        match self.modules.get(number) {
            Some(found) => Some(found),
            None => None,
        }
    }

    /// Where what this allocates comes from.
    pub fn alloc(&self) -> Global {
        self.alloc
    }

    /// In the place of the one that has its name, which comes back.
    pub(crate) fn replace(&mut self, number: usize, loaded: SessionModule) -> SessionModule
        requires { spec.number_in self.old loaded.interface.name ≡ Some number }
        ensures new { self.new ≡ session.with_module self.old loaded }
        ensures back { session.find_module self.old loaded.interface.name ≡ Some result }
    {
        mem::replace(&mut self.modules[number], loaded)
    }

    /// Behind the others.
    pub(crate) fn append(&mut self, loaded: SessionModule) -> Result<(), AllocError>
        requires { spec.number_in self.old loaded.interface.name ≡ None }
        ensures ok { OnOk result (self.new ≡ session.with_module self.old loaded) }
        ensures err { OnErr result (self.new ≡ self.old) }
    {
        let name = Vec::from_slice(self.alloc, loaded.interface().name().as_slice())?;
        self.modules.reserve(1)?;
        let number = self.modules.len();
        self.places.insert(name, number)?;
        match self.modules.push(loaded) {
            Ok(()) => Ok(()),
            Err(_) => unreachable!(),
        }
    }

    /// The last one goes, and its name.
    pub(crate) fn drop_last(&mut self)
        requires { EndsNew self.old }
        ensures { self.new ≡ without_last self.old }
    {
        if let Some(last) = self.modules.pop() {
            self.places.remove(last.interface().name().as_slice());
        }
    }
}
