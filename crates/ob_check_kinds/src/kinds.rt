//! Record types as a running program tells them apart, each with its kind, so that for an equal type no text is written anew.

ghost use Rattle.std.specs.Prelude.{◌≡◌, ◌++◌, suc, option_map, OnOk, IfOk};
ghost use Rattle.ob_types.specs.InterfaceText.{type_text};
ghost use Rattle.ob_types.specs.Types.{cells, chain};
ghost use Rattle.ob_check_kinds.specs.Kinds as spec;

use crate::kept::{Kept, find};
use crate::made::Made;
use crate::shapes::shape_of;
use ob_base::{Items, Shared, SharedItems, Text};
use ob_mean::{RecordKind, TypeName};
use ob_types::{ObType, base_of, is_declarable, put_type, same, zero_size};
use std::alloc::{AllocError, Global};

/// How many cells a value of a type takes. The error is for a type of 2^32 - 1 cells or more, which no declaration makes.
fn cells_of(of: &ObType) -> Result<usize, AllocError>
    ensures { IfOk result (λ n. n ≡ cells of.now) }
{
    let cells = zero_size(of);
    if cells == u32::MAX {
        return Err(AllocError);
    }
    Ok(cells as usize)
}

fn text_of(alloc: Global, of: &ObType) -> Result<Text, AllocError>
    ensures { IfOk result (λ t. t ≡ type_text of.now) }
{
    let mut text = String::new(alloc);
    put_type(&mut text, of)?;
    Ok(Text::from_vec(text.into_bytes()))
}

fn name_of(alloc: Global, of: &ObType) -> Result<TypeName, AllocError>
    ensures { IfOk result (λ n. n ≡ spec.name_of of.now) }
{
    let cells = cells_of(of)?;
    let text = Shared::new(alloc, text_of(alloc, of)?)?;
    Ok(TypeName { text, cells })
}

/// Appends one more owner of each name, or tells that no more owners can be counted.
fn add_names(names: &mut Items<TypeName>, more: &[TypeName]) -> Result<(), AllocError>
    ensures { OnOk result (names.new ≡ names.old ++ more.now) }
{
    for name in more {
        names.push(TypeName {
            text: name.text.another()?,
            cells: name.cells,
        })?;
    }
    Ok(())
}

/// The types whose kinds were made, with these, so that the name of a type is written out once: one more use of the type, or of
/// a type that extends it, takes one more owner of the name.
#[derive(Drop)]
pub struct Kinds {
    types: Vec<Kept<RecordKind>>,
    made: Made,
}

impl Kinds {
    /// None yet.
    pub fn new(alloc: Global) -> Kinds {
        Kinds {
            types: Vec::new(alloc),
            made: Made::new(alloc),
        }
    }

    /// Keeps a type with its kind, which is the answer. Or lack of memory.
    fn keep(&mut self, of: &ObType, kind: RecordKind) -> Result<RecordKind, AllocError>
        requires { kind ≡ spec.kind_of of.now }
        ensures { IfOk result (λ k. k ≡ spec.kind_of of.now) }
    {
        self.types.push(Kept::new(of.another()?, kind.another()?))?;
        Ok(kind)
    }

    /// The name of a type, that of its base, and so on, or lack of memory.
    #[cycle(kinds)]
    #[tactic(auto, using(crate::proofs::KindForms::names_step, ob_types::proofs::Equations::base_lower))]
    fn names_of(&mut self, alloc: Global, of: &ObType) -> Result<Items<TypeName>, AllocError>
        ensures { IfOk result (λ names. names ≡ spec.names_of of.now) }
    {
        let mut names = Items::new(alloc);
        names.push(name_of(alloc, of)?)?;
        match base_of(of) {
            Some(base) => {
                let kind = self.kind_of(alloc, base)?;
                add_names(&mut names, kind.names.as_slice())?;
                Ok(names)
            }
            None => Ok(names),
        }
    }

    /// A record type by its names, those of its bases, and its shape. Or lack of memory.
    #[cycle(kinds)]
    pub fn kind_of(&mut self, alloc: Global, of: &ObType) -> Result<RecordKind, AllocError>
        ensures { IfOk result (λ kind. kind ≡ spec.kind_of of.now) }
    {
        if let Some(kind) = find(self.types.as_slice(), of)? {
            return Ok(kind);
        }
        let names = self.names_of(alloc, of)?;
        let kind = RecordKind {
            names: SharedItems::new(alloc, names)?,
            shape: shape_of(alloc, &mut self.made, of)?,
        };
        self.keep(of, kind)
    }
}

fn one_more(levels: Option<usize>) -> Result<Option<usize>, AllocError>
    ensures { IfOk result (λ found. found ≡ option_map suc levels) }
{
    match levels {
        Some(levels) => match levels.checked_add(1) {
            Some(more) => Ok(Some(more)),
            None => Err(AllocError),
        },
        None => Ok(None),
    }
}

/// At which place a type stands in the row of a type and its bases, counted from 0. The error is for more bases than a number of 64
/// bits counts.
#[tactic(auto, using(crate::proofs::KindForms::level_step, ob_types::proofs::Equations::base_lower))]
fn level_in(to: &ObType, from: &ObType) -> Result<Option<usize>, AllocError>
    ensures { IfOk result (λ found. found ≡ spec.level_in to.now (chain from.now)) }
{
    if same(to, from) {
        return Ok(Some(0));
    }
    match base_of(from) {
        Some(base) => one_more(level_in(to, base)?),
        None => Ok(None),
    }
}

/// How many bases down from the type `from` the type `to` stands, where it is that type or one of its bases and `from` is a type
/// that a declaration can make. The error is for more bases than a number of 64 bits counts.
pub fn levels_to(to: &ObType, from: &ObType) -> Result<Option<usize>, AllocError>
    ensures { IfOk result (λ found. found ≡ spec.levels_to to.now from.now) }
{
    if is_declarable(from) {
        level_in(to, from)
    } else {
        Ok(None)
    }
}
