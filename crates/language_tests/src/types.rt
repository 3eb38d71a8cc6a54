//! Types and the texts of interfaces.

use ob_base::{Items, Text};
use ob_types::{
    Basic, Constant, Exported, Field, Form, Formal, FormalKind, Interface, ObType, Object,
    RecordName, Signature, assignable, extends, interface_text, is_admitted, levels, same,
    string_assignable, zero_size,
};
use std::alloc::{AllocError, Global};
use std::test::Fail;

fn text(alloc: Global, chars: &[u8]) -> Result<Text, AllocError> {
    Text::from_slice(alloc, chars)
}

fn integer() -> ObType {
    ObType::basic(Basic::Integer)
}

fn field(alloc: Global, name: &[u8], exported: bool, of: ObType) -> Result<Field, AllocError> {
    Ok(Field::new(text(alloc, name)?, exported, of))
}

/// The record type T of a module.
fn record(
    alloc: Global,
    module_name: &[u8],
    before: u32,
    fields: Items<Field>,
) -> Result<ObType, AllocError> {
    let name = RecordName {
        module_name: text(alloc, module_name)?,
        enclosing: Items::new(alloc),
        declared: text(alloc, b"T")?,
        before,
    };
    ObType::record(alloc, name, fields)
}

/// `RECORD a: INTEGER END` of a module N.
fn record_of_one(alloc: Global, name: &[u8], exported: bool) -> Result<ObType, AllocError> {
    let mut fields = Items::new(alloc);
    fields.push(field(alloc, name, exported, integer())?)?;
    record(alloc, b"N", 0, fields)
}

/// `RECORD (N.T) b: INTEGER END` of a module M, where N.T is `RECORD a*: INTEGER END`.
fn extension(alloc: Global) -> Result<ObType, AllocError> {
    let mut fields = Items::new(alloc);
    fields.push(field(alloc, b"", false, record_of_one(alloc, b"a", true)?)?)?;
    fields.push(field(alloc, b"b", false, integer())?)?;
    record(alloc, b"M", 0, fields)
}

fn exported(alloc: Global, name: &[u8], object: Object) -> Result<Exported, AllocError> {
    Ok(Exported {
        name: text(alloc, name)?,
        object,
    })
}

/// A type of so many levels and one cell.
fn deep(alloc: Global, levels: u32) -> Result<ObType, AllocError> {
    let mut of = integer();
    for _ in 0..levels {
        of = ObType::array(alloc, 1, of)?;
    }
    Ok(of)
}

/// Adds an exported object.
fn add(
    alloc: Global,
    exports: &mut Items<Exported>,
    name: &[u8],
    object: Object,
) -> Result<(), AllocError> {
    exports.push(exported(alloc, name, object)?)
}

/// What a small module exports.
fn small_exports(alloc: Global) -> Result<Items<Exported>, AllocError> {
    let mut exports = Items::new(alloc);
    add(
        alloc,
        &mut exports,
        b"T",
        Object::TypeName(record_of_one(alloc, b"a", false)?),
    )?;
    add(
        alloc,
        &mut exports,
        b"t",
        Object::Variable(record_of_one(alloc, b"a", false)?),
    )?;
    add(alloc, &mut exports, b"v", Object::Variable(integer()))?;
    let signature = Signature {
        formals: Items::new(alloc),
        result: None,
    };
    add(alloc, &mut exports, b"Inc", Object::Procedure(signature))?;
    Ok(exports)
}

/// Whether the text of a module with these exports is this.
fn has_text(
    alloc: Global,
    name: &[u8],
    exports: Items<Exported>,
    wanted: &str,
) -> Result<bool, AllocError> {
    let interface = Interface::new(alloc, text(alloc, name)?, exports)?;
    let written = interface_text(alloc, &interface)?;
    Ok(written.as_str() == wanted)
}

/// The same of a module M with one export.
fn has_line(alloc: Global, name: &[u8], object: Object, wanted: &str) -> Result<bool, AllocError> {
    let mut exports = Items::new(alloc);
    add(alloc, &mut exports, name, object)?;
    has_text(alloc, b"M", exports, wanted)
}

/// `PROCEDURE (VAR a: INTEGER; b: ARRAY OF CHAR): BOOLEAN`.
fn two_formals(alloc: Global) -> Result<Signature, AllocError> {
    let mut formals = Items::new(alloc);
    formals.push(Formal {
        kind: FormalKind::Variable,
        of: integer(),
    })?;
    formals.push(Formal {
        kind: FormalKind::Value,
        of: ObType::open(alloc, ObType::basic(Basic::Char))?,
    })?;
    Ok(Signature {
        formals,
        result: Some(Basic::Boolean),
    })
}

#[test]
fn the_text_of_a_small_module(rt: HostRuntime) -> Result<(), Fail> {
    let alloc = rt.alloc();
    let wanted = "module N\ntype T RN.T.0(a:I;)\nvar t RN.T.0(a:I;)\nvar v I\nproc Inc()\n";
    assert!(rt; has_text(alloc, b"N", small_exports(alloc)?, wanted)?);
    Ok(())
}

#[test]
fn lines_of_constants(rt: HostRuntime) -> Result<(), Fail> {
    let alloc = rt.alloc();
    let number = Object::Constant(Constant::Integer(-5));
    assert!(rt; has_line(alloc, b"k", number, "module M\nconst k I -5\n")?);
    let truth = Object::Constant(Constant::Boolean(true));
    assert!(rt; has_line(alloc, b"b", truth, "module M\nconst b B 1\n")?);
    let character = Object::Constant(Constant::Char(65));
    assert!(rt; has_line(alloc, b"c", character, "module M\nconst c C 65\n")?);
    let word = Object::Constant(Constant::Text(text(alloc, b"a\xFFZ")?));
    assert!(rt; has_line(alloc, b"s", word, "module M\nconst s S 61ff5a\n")?);
    Ok(())
}

#[test]
fn lines_of_types_and_procedures(rt: HostRuntime) -> Result<(), Fail> {
    let alloc = rt.alloc();
    let rows = ObType::array(
        alloc,
        2,
        ObType::array(alloc, 3, ObType::basic(Basic::Byte))?,
    )?;
    assert!(rt;
        has_line(
            alloc,
            b"rows",
            Object::TypeName(rows),
            "module M\ntype rows A2 A3 Y\n"
        )?
    );
    let marked = Object::Variable(record_of_one(alloc, b"f", true)?);
    assert!(rt; has_line(alloc, b"r", marked, "module M\nvar r RN.T.0(f*:I;)\n")?);
    let extended = Object::TypeName(extension(alloc)?);
    assert!(rt;
        has_line(
            alloc,
            b"T",
            extended,
            "module M\ntype T RM.T.0(^RN.T.0(a*:I;);b:I;)\n"
        )?
    );
    let procedure = Object::Procedure(two_formals(alloc)?);
    assert!(rt; has_line(alloc, b"P", procedure, "module M\nproc P(vI;pOC;):B\n")?);
    Ok(())
}

/// The cells and levels of a type, and whether there may be variables of it.
fn sized(of: Result<ObType, AllocError>) -> Result<(u32, u32, bool), AllocError> {
    let of = of?;
    Ok((zero_size(&of), levels(&of), is_admitted(&of)))
}

/// An array of arrays of INTEGER.
fn square(alloc: Global, rows: u32, columns: u32) -> Result<ObType, AllocError> {
    ObType::array(alloc, rows, ObType::array(alloc, columns, integer())?)
}

#[test]
fn cells_and_levels_at_their_limits(rt: HostRuntime) -> Result<(), Fail> {
    let alloc = rt.alloc();
    assert_eq!(rt;
        sized(ObType::array(alloc, 65_536, integer()))?,
        (65_536, 1, true)
    );
    assert_eq!(rt;
        sized(ObType::array(alloc, 65_537, integer()))?,
        (65_537, 1, false)
    );
    assert_eq!(rt; sized(square(alloc, 256, 257))?, (65_792, 2, false));
    assert_eq!(rt; sized(square(alloc, 65_536, 65_536))?, (u32::MAX, 2, false));
    assert_eq!(rt;
        sized(record(alloc, b"N", 0, Items::new(alloc)))?,
        (1, 1, true)
    );
    assert_eq!(rt; sized(extension(alloc))?, (2, 2, true));
    assert_eq!(rt; sized(ObType::open(alloc, integer()))?, (1, 1, true));
    assert_eq!(rt; sized(deep(alloc, 200))?, (1, 200, true));
    assert_eq!(rt; sized(deep(alloc, 201))?, (1, 201, false));
    Ok(())
}

/// Whether two types are the same.
fn are_same(
    one: Result<ObType, AllocError>,
    other: Result<ObType, AllocError>,
) -> Result<bool, AllocError> {
    let one = one?;
    let other = other?;
    Ok(same(&one, &other))
}

#[test]
fn types_are_the_same_by_name_and_structure(rt: HostRuntime) -> Result<(), Fail> {
    let alloc = rt.alloc();
    assert!(rt;
        are_same(
            record_of_one(alloc, b"a", false),
            record_of_one(alloc, b"a", false)
        )?
    );
    assert!(rt;
        !are_same(
            record_of_one(alloc, b"a", false),
            record_of_one(alloc, b"b", false)
        )?
    );
    assert!(rt;
        !are_same(
            record_of_one(alloc, b"a", false),
            record_of_one(alloc, b"a", true)
        )?
    );
    assert!(rt;
        !are_same(
            ObType::array(alloc, 2, integer()),
            ObType::array(alloc, 3, integer())
        )?
    );
    assert!(rt;
        !are_same(
            ObType::open(alloc, integer()),
            ObType::array(alloc, 3, integer())
        )?
    );
    Ok(())
}

/// A record type T of a module without fields.
fn empty(alloc: Global, module_name: &[u8], before: u32) -> Result<ObType, AllocError> {
    record(alloc, module_name, before, Items::new(alloc))
}

#[test]
fn names_of_records_are_compared(rt: HostRuntime) -> Result<(), Fail> {
    let alloc = rt.alloc();
    assert!(rt; are_same(empty(alloc, b"N", 0), empty(alloc, b"N", 0))?);
    assert!(rt; !are_same(empty(alloc, b"N", 0), empty(alloc, b"N", 1))?);
    assert!(rt; !are_same(empty(alloc, b"N", 0), empty(alloc, b"M", 0))?);
    Ok(())
}

/// A record of a module N with 40 fields `a`, and then one of this name and mark.
fn long(alloc: Global, last: &[u8], exported: bool) -> Result<ObType, AllocError> {
    let mut fields = Items::new(alloc);
    for _ in 0..40 {
        fields.push(field(alloc, b"a", false, integer())?)?;
    }
    fields.push(field(alloc, last, exported, integer())?)?;
    record(alloc, b"N", 0, fields)
}

/// A type that is doubled so often, so that it has more words than are kept.
fn doubled(alloc: Global, first: ObType, times: u32) -> Result<ObType, AllocError> {
    let mut of = first;
    for i in 0..times {
        let mut fields = Items::new(alloc);
        fields.push(field(alloc, b"a", false, of.another()?)?)?;
        fields.push(field(alloc, b"b", false, of)?)?;
        of = record(alloc, b"M", i, fields)?;
    }
    Ok(of)
}

/// The same of the record of one field of this name.
fn doubled_one(alloc: Global, name: &[u8]) -> Result<ObType, AllocError> {
    let first = record_of_one(alloc, name, false)?;
    doubled(alloc, first, 8)
}

#[test]
fn large_types_are_compared_to_the_end(rt: HostRuntime) -> Result<(), Fail> {
    let alloc = rt.alloc();
    assert!(rt; are_same(long(alloc, b"b", false), long(alloc, b"b", false))?);
    assert!(rt; !are_same(long(alloc, b"b", false), long(alloc, b"c", false))?);
    assert!(rt; !are_same(long(alloc, b"b", false), long(alloc, b"b", true))?);
    assert!(rt; are_same(doubled_one(alloc, b"x"), doubled_one(alloc, b"x"))?);
    assert!(rt; !are_same(doubled_one(alloc, b"x"), doubled_one(alloc, b"y"))?);
    assert_eq!(rt; sized(doubled_one(alloc, b"x"))?, (256, 9, true));
    Ok(())
}

/// The place of a field among those of a record.
fn place(alloc: Global, of: &ObType, name: &[u8]) -> Result<Option<usize>, AllocError> {
    let name = text(alloc, name)?;
    Ok(match of.form() {
        Form::Record(record) => record.get().place_of(&name),
        _ => None,
    })
}

#[test]
fn fields_by_their_places(rt: HostRuntime) -> Result<(), Fail> {
    let alloc = rt.alloc();
    let many = long(alloc, b"b", false)?;
    assert_eq!(rt; place(alloc, &many, b"a")?, Some(0));
    assert_eq!(rt; place(alloc, &many, b"b")?, Some(40));
    assert_eq!(rt; place(alloc, &many, b"c")?, None);
    let few = record_of_one(alloc, b"a", false)?;
    assert_eq!(rt; place(alloc, &few, b"a")?, Some(0));
    assert_eq!(rt; place(alloc, &few, b"b")?, None);
    Ok(())
}

/// Whether the second type is the first or extends it.
fn is_extended(
    to: Result<ObType, AllocError>,
    from: Result<ObType, AllocError>,
) -> Result<bool, AllocError> {
    let to = to?;
    let from = from?;
    Ok(extends(&to, &from))
}

#[test]
fn what_extends_a_type(rt: HostRuntime) -> Result<(), Fail> {
    let alloc = rt.alloc();
    assert!(rt; is_extended(record_of_one(alloc, b"a", true), extension(alloc))?);
    assert!(rt; is_extended(extension(alloc), extension(alloc))?);
    assert!(rt; !is_extended(extension(alloc), record_of_one(alloc, b"a", true))?);
    assert!(rt; !is_extended(record_of_one(alloc, b"a", false), extension(alloc))?);
    assert!(rt; !is_extended(Ok(integer()), extension(alloc))?);
    Ok(())
}

#[test]
fn what_may_be_assigned(rt: HostRuntime) -> Result<(), Fail> {
    let byte = ObType::basic(Basic::Byte);
    let number = integer();
    assert!(rt; assignable(&byte, &number));
    assert!(rt; assignable(&number, &byte));
    assert!(rt; !assignable(&number, &ObType::basic(Basic::Boolean)));
    assert!(rt; !assignable(&ObType::basic(Basic::Char), &byte));
    Ok(())
}

/// Whether a string of so many characters may be assigned to an array of so many characters.
fn fits(alloc: Global, elements: u32, length: usize) -> Result<bool, AllocError> {
    let of = ObType::array(alloc, elements, ObType::basic(Basic::Char))?;
    Ok(string_assignable(&of, length))
}

#[test]
fn strings_that_may_be_assigned(rt: HostRuntime) -> Result<(), Fail> {
    let alloc = rt.alloc();
    assert!(rt; string_assignable(&ObType::basic(Basic::Char), 1));
    assert!(rt; !string_assignable(&ObType::basic(Basic::Char), 2));
    assert!(rt; fits(alloc, 3, 2)?);
    assert!(rt; !fits(alloc, 3, 3)?);
    Ok(())
}

/// How many formals a copy of a signature has, and its result.
fn copied(alloc: Global) -> Result<(usize, Option<Basic>), AllocError> {
    let copy = two_formals(alloc)?.copy(alloc)?;
    Ok((copy.formals.len(), copy.result))
}

#[test]
fn a_signature_is_copied(rt: HostRuntime) -> Result<(), Fail> {
    assert!(rt; copied(rt.alloc())? == (2, Some(Basic::Boolean)));
    Ok(())
}
