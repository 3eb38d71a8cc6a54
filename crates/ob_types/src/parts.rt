//! What a type is made of.

ghost use Rattle.std.specs.Prelude.{◌≡◌, IfOk};
ghost use Rattle.ob_types.specs.declared.structure.ObType.{out-ObType};
ghost use Rattle.ob_types.specs.declared.structure.ObType.TheVariants.{Basic as OfBasic, Array as OfArray, Open as OfOpen, Record as OfRecord};
ghost use Rattle.ob_types.specs.declared.structure.RecordType.{out-RecordType, roll-RecordType};
ghost use Rattle.ob_types.specs.Forms as spec;

use crate::facts::facts_of;
use crate::form::{Field, Form, ObType, RecordType};
use crate::structure::{Basic, RecordName};
use ob_base::{Items, Shared, Text};
use std::alloc::{AllocError, Global};

impl ObType {
    /// A basic type.
    pub fn basic(of: Basic) -> ObType
        ensures { result ≡ OfBasic of }
    {
        ObType {
            form: Form::Basic(of),
        }
    }

    /// An array of so many elements of a type. Or lack of memory.
    pub fn array(alloc: Global, length: u32, element: ObType) -> Result<ObType, AllocError>
        ensures { IfOk result (λ t. t ≡ OfArray length element) }
    {
        let element = Shared::new(alloc, element)?;
        Ok(ObType {
            form: Form::Array(length, element),
        })
    }

    /// An open array of elements of a type. Or lack of memory.
    pub fn open(alloc: Global, element: ObType) -> Result<ObType, AllocError>
        ensures { IfOk result (λ t. t ≡ OfOpen element) }
    {
        let element = Shared::new(alloc, element)?;
        Ok(ObType {
            form: Form::Open(element),
        })
    }

    /// A record type of this name with these fields. Or lack of memory.
    pub fn record(
        alloc: Global,
        name: RecordName,
        fields: Items<Field>,
    ) -> Result<ObType, AllocError>
        ensures { IfOk result (λ t. t ≡ OfRecord (roll-RecordType (record { name = name; fields = fields }))) }
    {
        let facts = facts_of(alloc, &name, fields.as_slice())?;
        let record = RecordType {
            name,
            fields,
            facts,
        };
        Ok(ObType {
            form: Form::Record(Shared::new(alloc, record)?),
        })
    }

    /// Its form.
    #[tactic(auto, using(crate::proofs::Layers::layer_is))]
    pub fn form(&self) -> &Form
        ensures whole { spec.type_of result.now ≡ self.now }
        ensures layer { spec.layer_of result.now ≡ out-ObType self.now }
    {
        &self.form
    }
}

impl RecordType {
    /// Its name.
    #[tactic(auto, using(crate::proofs::Rolled::parts_rolled))]
    pub fn name(&self) -> &RecordName
        ensures { result.now ≡ (out-RecordType self.now).name }
    {
        &self.name
    }

    /// Its fields, in the order of their declaration.
    #[tactic(auto, using(crate::proofs::Rolled::parts_rolled))]
    pub fn fields(&self) -> &[Field]
        ensures { result.now ≡ (out-RecordType self.now).fields }
    {
        self.fields.as_slice()
    }
}

impl Field {
    /// A field of this name and type.
    pub fn new(name: Text, exported: bool, of: ObType) -> Field
        ensures { result ≡ record { name = name; exported = exported; of = of } }
    {
        Field { name, exported, of }
    }

    /// Its name.
    pub fn name(&self) -> &Text
        ensures { result.now ≡ self.now.name }
    {
        &self.name
    }

    /// Whether it is seen in other modules.
    pub fn exported(&self) -> bool
        ensures { result ≡ self.now.exported }
    {
        self.exported
    }

    /// Its type.
    pub fn of(&self) -> &ObType
        ensures { result.now ≡ self.now.of }
    {
        &self.of
    }
}
