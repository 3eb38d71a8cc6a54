//! Types. They share their parts, so that one more use of a type takes no copy of them. A record has beside it what is often asked
//! of it, which was found once, when it was made.

use crate::structure::{Basic, RecordName};
use ob_base::{Items, Shared, Text};
use std::collections::HashMap;
use std::marker::Model;

/// A type. Contracts see it written out.
#[cycle(form)]
#[derive(Drop)]
pub struct ObType {
    pub(crate) form: Form,
}

/// The form of a type.
#[cycle(form)]
#[derive(Drop)]
pub enum Form {
    Basic(Basic),
    /// How many elements, and their type.
    Array(u32, Shared<ObType>),
    /// An open array of a type, which a formal parameter alone may have.
    Open(Shared<ObType>),
    Record(Shared<RecordType>),
}

/// A record type: its name together with its structure.
#[cycle(form)]
#[derive(Drop)]
pub struct RecordType {
    pub(crate) name: RecordName,
    /// In the order of their declaration.
    pub(crate) fields: Items<Field>,
    pub(crate) facts: Facts,
}

/// A field of a record.
#[cycle(form)]
#[derive(Drop)]
pub struct Field {
    pub(crate) name: Text,
    pub(crate) exported: bool,
    pub(crate) of: ObType,
}

/// What is often asked of a record type.
#[derive(Drop)]
pub struct Facts {
    /// Its cells and its levels: `u32::MAX` stands for that many or more.
    pub(crate) cells: u32,
    pub(crate) levels: u32,
    /// Whether the names in it are words and its arrays have elements.
    pub(crate) plain: bool,
    /// How it is spelled: which records that are spelled alike are one, the records in them decide.
    pub(crate) spelling: Vec<u8>,
    pub(crate) ends: Ends,
    /// The first place of each name among the fields, where they are many.
    pub(crate) places: Option<HashMap<Vec<u8>, usize>>,
}

/// Which fields of a record end with one record, behind their arrays.
#[derive(Drop)]
pub struct Ends {
    /// For each field how many fields before it one stands that ends with the same record, where two may; 0 where none is known.
    pub(crate) backs: Vec<u8>,
    /// The numbers of the fields that end with a record for which no field before stands.
    pub(crate) kept: Vec<usize>,
}

impl Model for ObType {
    ghost use Rattle.std.specs.Coded.{codes};
    ghost use Rattle.ob_types.specs.declared.structure.ObType as plain;
    ghost use Rattle.ob_types.specs.contracts.structure.ObType as types;

    ghost Value = { plain.ObType };

    ghost coded = { Prim.hlevel (codes, types.the_row.coded) };

    ghost use Rattle.ob_types.specs.Forms.{type_of};
    ghost use Rattle.ob_types.specs.Sizes.{size_of, size_array, size_open};
    ghost use Rattle.std.proofs.Common.{arith};

    ghost view = { λ t. type_of t.form };

    ghost size = { size_of };

    ghost size_decreases = { λ a h. Prim.grind (arith, size_array, size_open) };
}

impl Model for RecordType {
    ghost use Rattle.std.specs.Coded.{codes};
    ghost use Rattle.ob_types.specs.declared.structure.RecordType as plain;
    ghost use Rattle.ob_types.specs.contracts.structure.RecordType as types;

    ghost Value = { plain.RecordType };

    ghost coded = { Prim.hlevel (codes, types.the_row.coded) };

    ghost use Rattle.ob_types.specs.declared.structure.RecordType.{roll-RecordType};
    ghost use Rattle.ob_types.specs.Forms.{AreFacts};
    ghost use Rattle.ob_types.specs.Sizes.{record_size, size_rolled, most_fields};
    ghost use Rattle.std.proofs.Common.{arith};

    ghost view = { λ r. roll-RecordType (record { name = r.name; fields = r.fields }) };

    ghost invariant = { λ r. AreFacts r.facts r.name r.fields };

    ghost size = { record_size };

    ghost size_decreases = { λ a h. Prim.grind (arith, size_rolled (record { name = a.name; fields = a.fields }), most_fields a.fields) };
}

impl Model for Field {
    ghost use Rattle.std.specs.Coded.{codes};
    ghost use Rattle.ob_types.specs.declared.structure.Field as plain;
    ghost use Rattle.ob_types.specs.contracts.structure.ObType as types;

    ghost Value = { plain.Field };

    ghost coded = { Prim.hlevel (codes, types.the_row.coded) };

    ghost use Rattle.std.specs.Prelude.{suc};
    ghost use Rattle.ob_types.specs.Sizes.{size_of};
    ghost use Rattle.std.proofs.Common.{arith};

    ghost view = { λ f. record { name = f.name; exported = f.exported; of = f.of } };

    ghost size = { λ f. suc (size_of f.of) };

    ghost size_decreases = { λ a h. Prim.grind arith };
}
