//! The interface of a module.

ghost use Rattle.std.specs.Prelude.{◌≡◌, ◌≤◌, string_bytes, length, take, IfOk};
ghost use Rattle.ob_types.specs.InterfaceText as spec;

use crate::exports::Exported;
use crate::interface_writing::put_interface;
use crate::numbered::NumberedExports;
use ob_base::{Items, Shared, Text};
use std::alloc::{AllocError, Global};
use std::marker::Model;

/// The parts of an interface.
#[derive(Drop)]
struct Parts {
    name: Text,
    exports: NumberedExports,
}

/// What a module shows to others: its name, and what it exports, in order of declaration. Its key is its text, which is written
/// out where somebody asks for it alone. It is there once, however many own it.
#[derive(Drop)]
pub struct Interface {
    parts: Shared<Parts>,
}

impl Model for Interface {
    ghost use Rattle.ob_types.specs.InterfaceTree.{InterfaceTree};
    ghost use Rattle.ob_types.specs.contracts.structure.ObType as structure;
    ghost use Rattle.std.specs.Coded.{codes};

    ghost Value = { InterfaceTree };

    ghost coded = { Prim.hlevel (codes, structure.the_row.coded) };

    ghost view = { λ i. record { name = i.parts.name; exports = i.parts.exports } };
}

impl Interface {
    /// The interface of these parts, or lack of memory.
    pub fn new(alloc: Global, name: Text, exports: Items<Exported>) -> Result<Interface, AllocError>
        ensures { IfOk result (λ i. i ≡ record { name = name; exports = exports }) }
    {
        let exports = NumberedExports::new(alloc, exports)?;
        let parts = Shared::new(alloc, Parts { name, exports })?;
        Ok(Interface { parts })
    }

    /// One more owner of the same interface, in constant time and without memory. Refused only where no more owners can be
    /// counted.
    pub fn another(&self) -> Result<Interface, AllocError>
        ensures { IfOk result (λ i. i ≡ self.now) }
    {
        let parts = self.parts.another()?;
        Ok(Interface { parts })
    }

    /// The module's name.
    pub fn name(&self) -> &Text
        ensures { result.now ≡ self.now.name }
    {
        &self.parts.get().name
    }

    /// What the module exports, in order of declaration.
    pub fn exports(&self) -> &[Exported]
        ensures { result.now ≡ self.now.exports }
    {
        self.parts.get().exports.as_slice()
    }

    /// How many exported names from the first are the same in both. A type is compared once for all names in which it stands.
    pub(crate) fn same_before(&self, other: &Interface) -> usize
        ensures same { take result self.now.exports ≡ take result other.now.exports }
        ensures left { result ≤ length self.now.exports }
        ensures right { result ≤ length other.now.exports }
    {
        self.parts
            .get()
            .exports
            .same_before(&other.parts.get().exports)
    }
}

/// The text of an interface: a line for the module, and one for each name that it exports, in order of declaration. Or lack of
/// memory.
pub fn interface_text(alloc: Global, interface: &Interface) -> Result<String, AllocError>
    ensures { IfOk result (λ t. string_bytes t ≡ spec.interface_text interface.now) }
{
    let mut text = String::new(alloc);
    put_interface(&mut text, interface.name(), interface.exports())?;
    Ok(text)
}
