//! The modules that are loaded.

ghost use Rattle.std.specs.Prelude.{◌≡◌, ◌++◌, [], Some, None, OnOk, OnErr, IfOk, option_copied, option_map, slice_get};
ghost use Rattle.ob_check_scope.specs.Imports as spec;
ghost use Rattle.ob_check_scope.specs.Imports.{reaches};
ghost use Rattle.ob_check_scope.specs.Exports as exports_spec;
ghost use Rattle.ob_check_scope.specs.Names as names_spec;
ghost use Rattle.ob_check_scope.specs.Names.{place_in};
ghost use Rattle.ob_check_scope.specs.Tables.{IsTableOf};

use crate::names::Names;
use ob_base::{Boxed, Text};
use ob_types::{Exported, Interface, Object};
use std::alloc::{AllocError, Global};
use std::marker::Model;

/// What a module exports, and the variables and the procedures among that, each name with its place.
#[derive(Drop)]
struct Tables {
    names: Names,
    variables: Names,
    procedures: Names,
}

/// A module that is loaded: its interface, and the names of the modules that it reaches by its imports and theirs.
#[derive(Drop)]
pub struct LoadedModule {
    interface: Interface,
    reached: Vec<Text>,
    /// Made where names of it are looked up often.
    tables: Option<Boxed<Tables>>,
}

impl Model for LoadedModule {
    ghost use Rattle.std.specs.Coded.{codes};
    ghost use Rattle.ob_types.specs.contracts.structure.ObType as structure;
    ghost use Rattle.ob_check_scope.specs.LoadedTree.{LoadedTree};
    ghost use Rattle.ob_check_scope.specs.Tables.{AreTablesOf};

    ghost Value = { LoadedTree };

    ghost coded = { Prim.hlevel (codes, structure.the_row.coded) };

    ghost view = { λ m. record { interface = m.interface; reached = m.reached.items } };

    ghost invariant = { λ m. AreTablesOf m.interface.exports m.tables };
}

fn names_of(alloc: Global, exports: &[Exported]) -> Result<Names, AllocError>
    ensures { IfOk result (λ ns. ns ≡ exports_spec.names_of exports.now) }
{
    let mut so_far = Names::new(alloc);
    for e in exports {
        so_far.push(alloc, &e.name)?;
    }
    Ok(so_far)
}

fn variables_in(alloc: Global, exports: &[Exported]) -> Result<Names, AllocError>
    ensures { IfOk result (λ ns. ns ≡ exports_spec.variables_in exports.now) }
{
    let mut so_far = Names::new(alloc);
    for e in exports {
        if let Object::Variable(_) = &e.object {
            so_far.push(alloc, &e.name)?;
        }
    }
    Ok(so_far)
}

fn procedures_in(alloc: Global, exports: &[Exported]) -> Result<Names, AllocError>
    ensures { IfOk result (λ ns. ns ≡ exports_spec.procedures_in exports.now) }
{
    let mut so_far = Names::new(alloc);
    for e in exports {
        if let Object::Procedure(_) = &e.object {
            so_far.push(alloc, &e.name)?;
        }
    }
    Ok(so_far)
}

fn tables_of(alloc: Global, exports: &[Exported]) -> Result<Tables, AllocError>
    ensures { IfOk result (λ t. IsTableOf exports.now t) }
{
    let names = names_of(alloc, exports)?;
    let variables = variables_in(alloc, exports)?;
    let procedures = procedures_in(alloc, exports)?;
    Ok(Tables {
        names,
        variables,
        procedures,
    })
}

fn copied_names(alloc: Global, names: &[Text]) -> Result<Vec<Text>, AllocError>
    ensures { IfOk result (λ ns. ns.items ≡ names.now) }
{
    let mut so_far = Vec::new(alloc);
    for name in names {
        so_far.push(name.copy(alloc)?)?;
    }
    Ok(so_far)
}

fn is_among(names: &[Text], name: &Text) -> bool
    ensures { result ≡ names_spec.is_among names.now name.now }
{
    for each in names {
        if each.same(name) {
            return true;
        }
    }
    false
}

/// What these have under a name.
fn exported_in<'a>(exports: &'a [Exported], name: &Text) -> Option<&'a Object>
    ensures { option_copied result ≡ exports_spec.exported_in exports.now name.now }
{
    for e in exports {
        if e.name.same(name) {
            return Some(&e.object);
        }
    }
    None
}

/// The number of the variable of a name among the variables of these.
fn variable_place(exports: &[Exported], name: &Text) -> Option<usize>
    ensures { result ≡ place_in (exports_spec.variables_in exports.now) name.now }
{
    let mut before = 0;
    for e in exports {
        if let Object::Variable(_) = &e.object {
            if e.name.same(name) {
                return Some(before);
            }
            before += 1;
        }
    }
    None
}

/// The number of the procedure of a name among the procedures of these.
fn procedure_place(exports: &[Exported], name: &Text) -> Option<usize>
    ensures { result ≡ place_in (exports_spec.procedures_in exports.now) name.now }
{
    let mut before = 0;
    for e in exports {
        if let Object::Procedure(_) = &e.object {
            if e.name.same(name) {
                return Some(before);
            }
            before += 1;
        }
    }
    None
}

fn object_in(exports: &[Exported], place: usize) -> Option<&Object>
    ensures { option_copied result ≡ option_map (λ e. e.object) (slice_get exports.now place) }
{
    match exports.get(place) {
        Some(exported) => Some(&exported.object),
        None => None,
    }
}

/// The same by tables.
fn exported_by<'a>(tables: &Tables, exports: &'a [Exported], name: &Text) -> Option<&'a Object>
    requires { IsTableOf exports.now tables.now }
    ensures { option_copied result ≡ exports_spec.exported_in exports.now name.now }
{
    match tables.names.place_of(name) {
        Some(place) => object_in(exports, place),
        None => None,
    }
}

impl LoadedModule {
    /// A module of this interface that reaches these. Or lack of memory.
    fn new(
        alloc: Global,
        interface: &Interface,
        reached: &[Text],
    ) -> Result<LoadedModule, AllocError>
        ensures { IfOk result (λ m. m ≡ record { interface = interface.now; reached = reached.now }) }
    {
        let reached = copied_names(alloc, reached)?;
        let interface = interface.another()?;
        Ok(LoadedModule {
            interface,
            reached,
            tables: None,
        })
    }

    /// Its interface.
    pub fn interface(&self) -> &Interface
        ensures { result.now ≡ self.now.interface }
    {
        &self.interface
    }

    /// The names of the modules that it reaches by its imports and theirs.
    pub fn reached(&self) -> &[Text]
        ensures { result.now ≡ self.now.reached }
    {
        self.reached.as_slice()
    }

    fn reaches(&self, name: &Text) -> bool
        ensures { result ≡ names_spec.is_among self.now.reached name.now }
    {
        is_among(self.reached.as_slice(), name)
    }

    /// Makes its tables. It stays the same module.
    fn index(&mut self, alloc: Global) -> Result<(), AllocError>
        ensures { self.new ≡ self.old }
    {
        if self.tables.is_none() {
            let tables = tables_of(alloc, self.interface.exports())?;
            self.tables = Some(Boxed::new(alloc, tables)?);
        }
        Ok(())
    }

    /// What it exports under a name.
    fn exported(&self, name: &Text) -> Option<&Object>
        ensures { option_copied result ≡ exports_spec.exported_in self.now.interface.exports name.now }
    {
        match &self.tables {
            Some(tables) => exported_by(tables.get(), self.interface.exports(), name),
            None => exported_in(self.interface.exports(), name),
        }
    }

    fn variable(&self, name: &Text) -> Option<usize>
        ensures { result ≡ place_in (exports_spec.variables_in self.now.interface.exports) name.now }
    {
        match &self.tables {
            Some(tables) => tables.get().variables.place_of(name),
            None => variable_place(self.interface.exports(), name),
        }
    }

    fn procedure(&self, name: &Text) -> Option<usize>
        ensures { result ≡ place_in (exports_spec.procedures_in self.now.interface.exports) name.now }
    {
        match &self.tables {
            Some(tables) => tables.get().procedures.place_of(name),
            None => procedure_place(self.interface.exports(), name),
        }
    }
}

/// The modules that are loaded. Contracts see the list of them.
#[derive(Drop)]
pub struct Imports {
    modules: Vec<LoadedModule>,
    alloc: Global,
}

impl Model for Imports {
    ghost use Rattle.std.specs.Prelude.{List};
    ghost use Rattle.std.specs.Coded.{codes};
    ghost use Rattle.ob_types.specs.contracts.structure.ObType as structure;
    ghost use Rattle.ob_check_scope.specs.LoadedTree.{LoadedTree};

    ghost Value = { List LoadedTree };

    ghost coded = { Prim.hlevel (codes, structure.the_row.coded) };

    ghost view = { λ i. i.modules.items };
}

/// The first place of a name among those of these.
fn place_among(modules: &[LoadedModule], name: &Text) -> Option<usize>
    ensures { result ≡ place_in (exports_spec.module_names modules.now) name.now }
{
    let mut before = 0;
    for module in modules {
        if module.interface().name().same(name) {
            return Some(before);
        }
        before += 1;
    }
    None
}

fn or_zero(number: Option<usize>) -> usize
    ensures { result ≡ spec.or_zero number }
{
    match number {
        Some(number) => number,
        None => 0,
    }
}

impl Imports {
    /// No module.
    pub fn empty(alloc: Global) -> Imports
        ensures { result ≡ [] }
    {
        Imports {
            modules: Vec::new(alloc),
            alloc,
        }
    }

    /// The loaded modules.
    pub fn modules(&self) -> &[LoadedModule]
        ensures { result.now ≡ self.now }
    {
        self.modules.as_slice()
    }

    /// Another module in the place of the one that has its name.
    fn replace(&mut self, place: usize, loaded: LoadedModule)
        requires { spec.module_place self.old loaded.interface.name ≡ Some place }
        ensures { self.new ≡ spec.added self.old loaded }
    {
        self.modules[place] = loaded;
    }

    /// A module of another name.
    fn append(&mut self, loaded: LoadedModule) -> Result<(), AllocError>
        requires { spec.module_place self.old loaded.interface.name ≡ None }
        ensures ok { OnOk result (self.new ≡ spec.added self.old loaded) }
        ensures err { OnErr result (self.new ≡ self.old) }
    {
        self.modules.push(loaded)?;
        Ok(())
    }

    /// A module more, of a name that none of them has, with the names of the modules that it reaches by its imports and theirs.
    /// It looks at none of the others. Lack of memory leaves the modules as they were.
    pub fn push(&mut self, interface: &Interface, reached: &[Text]) -> Result<(), AllocError>
        requires { spec.module_place self.old interface.now.name ≡ None }
        ensures ok { OnOk result (self.new ≡ spec.added self.old (record { interface = interface.now; reached = reached.now })) }
        ensures err { OnErr result (self.new ≡ self.old) }
    {
        let loaded = LoadedModule::new(self.alloc, interface, reached)?;
        self.append(loaded)
    }

    /// Makes the look-up of names in the module at this place quick, if there is one. Nothing that is seen changes. Or want of
    /// memory.
    pub fn index_at(&mut self, place: usize) -> Result<(), AllocError>
        ensures { self.new ≡ self.old }
    {
        if place < self.modules.len() {
            self.modules[place].index(self.alloc)?;
        }
        Ok(())
    }

    /// A module more, with the names of the modules that it reaches by its imports and theirs. It takes the place of the one
    /// that has its name. Lack of memory leaves the modules as they were.
    pub fn add(&mut self, interface: &Interface, reached: &[Text]) -> Result<(), AllocError>
        ensures ok { OnOk result (self.new ≡ spec.added self.old (record { interface = interface.now; reached = reached.now })) }
        ensures err { OnErr result (self.new ≡ self.old) }
    {
        let loaded = LoadedModule::new(self.alloc, interface, reached)?;
        match self.place_of(interface.name()) {
            Some(place) => {
                self.replace(place, loaded);
                Ok(())
            }
            None => self.append(loaded),
        }
    }

    /// What the loaded module at this place exports under a name.
    #[tactic(auto, unfolding(crate::specs::Imports::exported_at))]
    pub fn exported_at(&self, place: usize, name: &Text) -> Option<&Object>
        ensures { option_copied result ≡ spec.exported_at self.now place name.now }
    {
        match self.modules.get(place) {
            Some(module) => module.exported(name),
            None => None,
        }
    }

    /// The number of an exported variable among the variables that the loaded module at this place exports.
    #[tactic(auto, unfolding(crate::specs::Imports::variable_number))]
    pub fn variable_number(&self, place: usize, name: &Text) -> usize
        ensures { result ≡ spec.variable_number self.now place name.now }
    {
        match self.modules.get(place) {
            Some(module) => or_zero(module.variable(name)),
            None => 0,
        }
    }

    /// The number of an exported procedure among the procedures that the loaded module at this place exports.
    #[tactic(auto, unfolding(crate::specs::Imports::procedure_number))]
    pub fn procedure_number(&self, place: usize, name: &Text) -> usize
        ensures { result ≡ spec.procedure_number self.now place name.now }
    {
        match self.modules.get(place) {
            Some(module) => or_zero(module.procedure(name)),
            None => 0,
        }
    }

    /// The place of the loaded module of this name.
    #[tactic(auto, unfolding(crate::specs::Imports::module_place))]
    pub fn place_of(&self, name: &Text) -> Option<usize>
        ensures { result ≡ spec.module_place self.now name.now }
    {
        place_among(self.modules.as_slice(), name)
    }

    /// Whether the loaded module at this place reaches a module by its imports and theirs.
    pub fn reaches_at(&self, place: usize, name: &Text) -> bool
        ensures { result ≡ reaches (slice_get self.now place) name.now }
    {
        match self.modules.get(place) {
            Some(module) => module.reaches(name),
            None => false,
        }
    }
}

/// A module that is there without being loaded, or another.
#[derive(Clone, Copy, Debug, PartialEq, Eq)]
pub enum StandardName {
    In,
    Out,
    System,
    Other,
}

/// Which of the modules In, Out and SYSTEM has this name.
pub fn standard_named(name: &Text) -> StandardName
    ensures { result ≡ spec.standard_named name.now }
{
    let name = name.as_slice();
    if name == b"Out".as_slice() {
        StandardName::Out
    } else if name == b"In".as_slice() {
        StandardName::In
    } else if name == b"SYSTEM".as_slice() {
        StandardName::System
    } else {
        StandardName::Other
    }
}
