//! Imports and declarations.
//!
//! Constants, types, and variables each have a loop of their own, as procedures have in ob_check_module: the loops are alike
//! but for the rule of one more, and one loop for all would have to take that rule as a closure. One variable more is declared in
//! three ways, each of which counts in a number of its own.

ghost use Rattle.std.specs.Prelude.{◌≡◌, ◌≤◌, [], false, None, IfOk};
ghost use Rattle.ob_check_scope.specs.declared.rule.RuleCode.TheVariants as code;
ghost use Rattle.ob_check_scope.specs.Block.{find};
ghost use Rattle.ob_check_scope.specs.Scope.{with_entry};
ghost use Rattle.ob_check_scope.specs.Rule.{Judges, Given, gives, AnswersTree, BrokenOnly, there, through};
ghost use Rattle.ob_check_decl.specs.Declarations as spec;
ghost use Rattle.ob_check_scope.specs.declared.scope.Scope.{Scope};

use crate::written_type::written_type;
use ob_base::Text;
use ob_check_const::constant::constant;
use ob_check_scope::block::{Block, Declared, Entry, Standing};
use ob_check_scope::imports::{Imports, StandardName, standard_named};
use ob_check_scope::names::Names;
use ob_check_scope::rejected::{Rejected, broken};
use ob_check_scope::rule::RuleCode;
use ob_check_scope::scope::Scope;
use ob_check_scope::site::Site;
use ob_scan::Span;
use ob_tree::tree::{
    ConstDeclaration, Declarations, Ident, IdentDef, Import, Module, TypeDeclaration, TypedNames,
};
use ob_types::{ObType, zero_size};
use std::alloc::Global;

/// How many constructs nest. A tree that was read from a text has no more; of another it is a size.
pub const MAX_NESTING: u32 = 200;

/// How many cells the variables of a module take.
const MAX_MODULE_CELLS: u32 = 262_144;

/// How many cells the variables of a procedure take.
const MAX_PROCEDURE_CELLS: u32 = 16_384;

/// One more, of what there are not too many.
fn next_place(n: usize, span: Span) -> Result<usize, Rejected>
    ensures { Judges (there (spec.one_more spec.max_count n) code.Size) result }
{
    match n.checked_add(1) {
        Some(next) => Ok(next),
        None => Err(Rejected::Rule(broken(RuleCode::Size, span))),
    }
}

/// One variable more.
fn next_variable(n: u32, span: Span) -> Result<u32, Rejected>
    ensures { Judges (there (spec.one_more spec.max_variables n) code.Size) result }
{
    match n.checked_add(1) {
        Some(next) => Ok(next),
        None => Err(Rejected::Rule(broken(RuleCode::Size, span))),
    }
}

/// One name more, which neither the block has nor these names.
#[tactic(auto, unfolding(crate::specs::Declarations::new_name))]
pub(crate) fn new_name(
    alloc: Global,
    block: &Block,
    so_far: Names,
    name: &Ident,
) -> Result<Names, Rejected>
    ensures { Judges (spec.new_name block.now so_far name.now.name) result }
{
    let mut so_far = so_far;
    if block.find(&name.name).is_some() {
        return Err(Rejected::Rule(broken(RuleCode::DeclaredTwice, name.span)));
    }
    if so_far.contains(&name.name) {
        return Err(Rejected::Rule(broken(RuleCode::DeclaredTwice, name.span)));
    }
    so_far.push(alloc, &name.name)?;
    Ok(so_far)
}

/// The name that an imported module has itself.
fn own_name(import: &Import) -> &Ident
    ensures { result.now.name ≡ spec.own_name import.now.name import.now.module_name }
{
    match &import.module_name {
        Some(own) => own,
        None => &import.name,
    }
}

/// The place of a module that is loaded, and doesn't reach the one that imports it.
#[tactic(auto, unfolding(crate::specs::Declarations::loaded_place))]
fn loaded_place(
    modules: &Imports,
    this: &Text,
    place: Option<usize>,
    span: Span,
) -> Result<usize, Rejected>
    ensures { Judges (spec.loaded_place modules.now this.now place) result }
{
    match place {
        None => Err(Rejected::Rule(broken(RuleCode::NotLoaded, span))),
        Some(place) => {
            if modules.reaches_at(place, this) {
                return Err(Rejected::Rule(broken(RuleCode::ImportsItself, span)));
            }
            Ok(place)
        }
    }
}

/// One import more, of a name that is new.
fn with_import(alloc: Global, so_far: Scope, name: &Ident, entry: Entry) -> Result<Scope, Rejected>
    requires { find so_far.block name.now.name ≡ None }
    ensures { Judges (Given (with_entry so_far name.now.name false entry)) result }
{
    let mut so_far = so_far;
    so_far.declare(alloc, &name.name, false, entry)?;
    Ok(so_far)
}

/// The number that a name has for the module that is loaded at a place, if it stands for it.
fn number_by(entry: &Entry, place: usize) -> Option<usize>
    ensures { result ≡ spec.number_by entry.now place }
{
    match entry {
        Entry::Module(import, other) => { if *other == place { Some(*import) } else { None } }
        _ => None,
    }
}

/// The number that the last name for that module has. It is found at once where modules have many names one after the other.
fn number_of_module(declared: &[Declared], place: usize) -> Option<usize>
    ensures { result ≡ spec.number_of_module declared.now place }
{
    let mut i = declared.len();
    while i > 0 {
        i -= 1;
        if let Some(import) = number_by(&declared[i].entry, place) {
            return Some(import);
        }
    }
    None
}

/// One import more of a module that is loaded at a place, by the number that it has already or by a new one.
#[tactic(auto, unfolding(crate::specs::Declarations::module_numbered))]
fn module_numbered(
    alloc: Global,
    so_far: Scope,
    name: &Ident,
    place: usize,
    known: Option<usize>,
) -> Result<Scope, Rejected>
    requires { find so_far.block name.now.name ≡ None }
    ensures { Judges (spec.module_numbered so_far name.now.name place known) result }
{
    if let Some(import) = known {
        return with_import(alloc, so_far, name, Entry::Module(import, place));
    }
    let mut so_far = so_far;
    let number = so_far.import_count;
    so_far.import_count = next_place(number, name.span)?;
    with_import(alloc, so_far, name, Entry::Module(number, place))
}

/// One import more of a module that is loaded at a place.
fn with_module(alloc: Global, so_far: Scope, name: &Ident, place: usize) -> Result<Scope, Rejected>
    requires { find so_far.block name.now.name ≡ None }
    ensures { Judges (spec.with_module so_far name.now.name place) result }
{
    let known = number_of_module(so_far.block.declared(), place);
    module_numbered(alloc, so_far, name, place, known)
}

/// One import more of a module but for In, Out and SYSTEM.
#[tactic(auto, unfolding(crate::specs::Declarations::other_module))]
fn other_module(
    alloc: Global,
    modules: &Imports,
    so_far: Scope,
    name: &Ident,
    own: &Ident,
) -> Result<Scope, Rejected>
    requires { find so_far.block name.now.name ≡ None }
    ensures { Judges (spec.other_module modules.now so_far name.now.name own.now.name) result }
{
    let found = modules.place_of(&own.name);
    let place = loaded_place(modules, &so_far.module_name, found, own.span)?;
    with_module(alloc, so_far, name, place)
}

/// What is imported under a module's own name.
#[tactic(auto, unfolding(crate::specs::Declarations::imported_as))]
fn imported_as(
    alloc: Global,
    modules: &Imports,
    so_far: Scope,
    name: &Ident,
    own: &Ident,
    standard: StandardName,
) -> Result<Scope, Rejected>
    requires { find so_far.block name.now.name ≡ None }
    ensures { Judges (spec.imported_as modules.now so_far name.now.name own.now.name standard) result }
{
    match standard {
        StandardName::In => with_import(alloc, so_far, name, Entry::In),
        StandardName::Out => with_import(alloc, so_far, name, Entry::Out),
        StandardName::System => Err(Rejected::Rule(broken(RuleCode::LeftOut, own.span))),
        StandardName::Other => other_module(alloc, modules, so_far, name, own),
    }
}

/// One import more under a name, of a module that has its own.
#[tactic(auto, unfolding(crate::specs::Declarations::import_named))]
fn import_named(
    alloc: Global,
    modules: &Imports,
    so_far: Scope,
    name: &Ident,
    own: &Ident,
) -> Result<Scope, Rejected>
    requires { find so_far.block name.now.name ≡ None }
    ensures { Judges (spec.import_named modules.now so_far name.now.name own.now.name) result }
{
    if own.name.same(&so_far.module_name) {
        return Err(Rejected::Rule(broken(RuleCode::ImportsItself, own.span)));
    }
    let standard = standard_named(&own.name);
    imported_as(alloc, modules, so_far, name, own, standard)
}

/// One import more, under a name that is new.
fn new_import(
    alloc: Global,
    modules: &Imports,
    so_far: Scope,
    import: &Import,
) -> Result<Scope, Rejected>
    requires { find so_far.block import.now.name.name ≡ None }
    ensures { Judges (spec.new_import modules.now so_far import.now) result }
{
    import_named(alloc, modules, so_far, &import.name, own_name(import))
}

/// One import more.
#[tactic(auto, unfolding(crate::specs::Declarations::import_rule))]
fn import(
    alloc: Global,
    modules: &Imports,
    so_far: Scope,
    import: &Import,
) -> Result<Scope, Rejected>
    ensures { Judges (spec.import_rule modules.now so_far import.now) result }
{
    let name = &import.name;
    if so_far.block.find(&name.name).is_some() {
        return Err(Rejected::Rule(broken(RuleCode::DeclaredTwice, name.span)));
    }
    new_import(alloc, modules, so_far, import)
}

fn imports(
    alloc: Global,
    modules: &Imports,
    first: Scope,
    list: &[Import],
) -> Result<Scope, Rejected>
    ensures { Judges (through (spec.import_rule modules.now) first list.now) result }
{
    let mut so_far = first;
    for one in list {
        so_far = import(alloc, modules, so_far, one)?;
    }
    Ok(so_far)
}

/// A constant of a name that is new.
#[tactic(auto, unfolding(crate::specs::Declarations::new_constant))]
fn new_constant(
    alloc: Global,
    modules: &Imports,
    nesting: u32,
    so_far: Scope,
    d: &ConstDeclaration,
) -> Result<Scope, Rejected>
    requires { find so_far.block d.now.name.name.name ≡ None }
    ensures { Judges (spec.new_constant modules.now nesting so_far d.now) result }
{
    let mut so_far = so_far;
    let name = &d.name.name;
    let value = constant(
        Site {
            alloc,
            imports: modules,
            scope: &so_far,
            levels: nesting,
        },
        d.value.get(),
    )?;
    let mark = d.name.mark.is_some();
    so_far.declare(alloc, &name.name, mark, Entry::Constant(value))?;
    Ok(so_far)
}

/// One constant more.
#[tactic(auto, unfolding(crate::specs::Declarations::constant_rule))]
fn constant_declared(
    alloc: Global,
    modules: &Imports,
    nesting: u32,
    so_far: Scope,
    d: &ConstDeclaration,
) -> Result<Scope, Rejected>
    ensures { Judges (spec.constant_rule modules.now nesting so_far d.now) result }
{
    let name = &d.name.name;
    if so_far.block.find(&name.name).is_some() {
        return Err(Rejected::Rule(broken(RuleCode::DeclaredTwice, name.span)));
    }
    new_constant(alloc, modules, nesting, so_far, d)
}

fn constants(
    alloc: Global,
    modules: &Imports,
    nesting: u32,
    first: Scope,
    list: &[ConstDeclaration],
) -> Result<Scope, Rejected>
    ensures { Judges (through (spec.constant_rule modules.now nesting) first list.now) result }
{
    let mut so_far = first;
    for d in list {
        so_far = constant_declared(alloc, modules, nesting, so_far, d)?;
    }
    Ok(so_far)
}

/// A type of a name that is new.
#[tactic(auto, unfolding(crate::specs::Declarations::new_type))]
fn new_type(
    alloc: Global,
    modules: &Imports,
    nesting: u32,
    so_far: Scope,
    d: &TypeDeclaration,
) -> Result<Scope, Rejected>
    requires { find so_far.block d.now.name.name.name ≡ None }
    ensures { Judges (spec.new_type modules.now nesting so_far d.now) result }
{
    let mut so_far = so_far;
    let name = &d.name.name.name;
    let naming = so_far.naming(alloc, name.as_slice())?;
    let site = Site {
        alloc,
        imports: modules,
        scope: &so_far,
        levels: nesting,
    };
    let written = written_type(site, &naming, 0, d.of.get())?;
    let mark = d.name.mark.is_some();
    so_far.declare(alloc, name, mark, Entry::TypeName(written.of))?;
    Ok(so_far)
}

/// One type more.
#[tactic(auto, unfolding(crate::specs::Declarations::type_rule))]
fn type_declared(
    alloc: Global,
    modules: &Imports,
    nesting: u32,
    so_far: Scope,
    d: &TypeDeclaration,
) -> Result<Scope, Rejected>
    ensures { Judges (spec.type_rule modules.now nesting so_far d.now) result }
{
    let name = &d.name.name;
    if so_far.block.find(&name.name).is_some() {
        return Err(Rejected::Rule(broken(RuleCode::DeclaredTwice, name.span)));
    }
    new_type(alloc, modules, nesting, so_far, d)
}

fn types(
    alloc: Global,
    modules: &Imports,
    nesting: u32,
    first: Scope,
    list: &[TypeDeclaration],
) -> Result<Scope, Rejected>
    ensures { Judges (through (spec.type_rule modules.now nesting) first list.now) result }
{
    let mut so_far = first;
    for d in list {
        so_far = type_declared(alloc, modules, nesting, so_far, d)?;
    }
    Ok(so_far)
}

/// How many cells the variables of a block take, by the blocks round it.
fn most_cells(outermost: bool) -> u32
    ensures value { result ≡ spec.most_cells outermost }
    ensures bound { result ≤ 262144 }
{
    if outermost {
        MAX_MODULE_CELLS
    } else {
        MAX_PROCEDURE_CELLS
    }
}

/// How many cells are taken with a variable more, if they are not too many.
fn cells_behind(outermost: bool, taken: u32, of: &ObType) -> Option<u32>
    ensures { result ≡ spec.cells_behind (spec.most_cells outermost) taken of.now }
{
    let most = most_cells(outermost);
    let total = taken.checked_add(zero_size(of))?;
    if total <= most { Some(total) } else { None }
}

/// One variable of the module more, which others see.
#[tactic(auto, unfolding(crate::specs::Declarations::exported_variable))]
fn exported_variable(
    alloc: Global,
    so_far: Scope,
    name: &Ident,
    of: ObType,
) -> Result<Scope, Rejected>
    requires { find so_far.block name.now.name ≡ None }
    ensures { Judges (spec.exported_variable so_far name.now.name of) result }
{
    let mut so_far = so_far;
    let number = so_far.exported_count;
    so_far.exported_count = next_variable(number, name.span)?;
    let entry = Entry::Variable(of, Standing::Exported(number));
    so_far.declare(alloc, &name.name, true, entry)?;
    Ok(so_far)
}

/// One variable of the module more, which others don't see.
#[tactic(auto, unfolding(crate::specs::Declarations::own_variable))]
fn own_variable(alloc: Global, so_far: Scope, name: &Ident, of: ObType) -> Result<Scope, Rejected>
    requires { find so_far.block name.now.name ≡ None }
    ensures { Judges (spec.own_variable so_far name.now.name of) result }
{
    let mut so_far = so_far;
    let number = so_far.own_count;
    so_far.own_count = next_variable(number, name.span)?;
    let entry = Entry::Variable(of, Standing::Own(number));
    so_far.declare(alloc, &name.name, false, entry)?;
    Ok(so_far)
}

/// One variable of a procedure more.
#[tactic(auto, unfolding(crate::specs::Declarations::local_variable))]
fn local_variable(alloc: Global, so_far: Scope, name: &Ident, of: ObType) -> Result<Scope, Rejected>
    requires { find so_far.block name.now.name ≡ None }
    ensures { Judges (spec.local_variable so_far name.now.name of) result }
{
    let mut so_far = so_far;
    let number = so_far.local_count;
    so_far.local_count = next_place(number, name.span)?;
    let entry = Entry::Variable(of, Standing::Local(number));
    so_far.declare(alloc, &name.name, false, entry)?;
    Ok(so_far)
}

/// One variable more, by where it stands.
#[tactic(auto, unfolding(crate::specs::Declarations::variable_in))]
fn variable_in(
    alloc: Global,
    outermost: bool,
    mark: bool,
    so_far: Scope,
    name: &Ident,
    of: ObType,
) -> Result<Scope, Rejected>
    requires { find so_far.block name.now.name ≡ None }
    ensures { Judges (spec.variable_in outermost mark so_far name.now.name of) result }
{
    if !outermost {
        local_variable(alloc, so_far, name, of)
    } else if mark {
        exported_variable(alloc, so_far, name, of)
    } else {
        own_variable(alloc, so_far, name, of)
    }
}

/// One variable more.
#[tactic(auto, unfolding(crate::specs::Declarations::variable_rule))]
fn variable(alloc: Global, of: &ObType, so_far: Scope, name: &IdentDef) -> Result<Scope, Rejected>
    ensures { Judges (spec.variable_rule of.now so_far name.now) result }
{
    let mut so_far = so_far;
    let ident = &name.name;
    if so_far.block.find(&ident.name).is_some() {
        return Err(Rejected::Rule(broken(RuleCode::DeclaredTwice, ident.span)));
    }
    let outermost = so_far.is_outermost();
    match cells_behind(outermost, so_far.cells_taken, of) {
        Some(cells) => {
            so_far.cells_taken = cells;
            let of = of.another()?;
            variable_in(alloc, outermost, name.mark.is_some(), so_far, ident, of)
        }
        None => Err(Rejected::Rule(broken(RuleCode::Size, ident.span))),
    }
}

fn variables(
    alloc: Global,
    of: &ObType,
    first: Scope,
    names: &[IdentDef],
) -> Result<Scope, Rejected>
    ensures { Judges (through (spec.variable_rule of.now) first names.now) result }
{
    let mut so_far = first;
    for name in names {
        so_far = variable(alloc, of, so_far, name)?;
    }
    Ok(so_far)
}

/// The names of variables of one type, none of which the block has.
fn variable_names(alloc: Global, block: &Block, list: &[IdentDef]) -> Result<Names, Rejected>
    ensures { Judges (through (spec.variable_name block.now) [] list.now) result }
{
    let mut so_far = Names::new(alloc);
    for x in list {
        so_far = new_name(alloc, block, so_far, &x.name)?;
    }
    Ok(so_far)
}

fn first_name(names: &[IdentDef]) -> &[u8]
    ensures { result.now ≡ spec.first_name names.now }
{
    match names {
        [] => &[],
        [first, ..] => first.name.name.as_slice(),
    }
}

/// Variables of one type, whose names are new.
#[tactic(auto, unfolding(crate::specs::Declarations::typed_variables))]
fn typed_variables(
    alloc: Global,
    modules: &Imports,
    nesting: u32,
    so_far: Scope,
    x: &TypedNames,
) -> Result<Scope, Rejected>
    ensures { Judges (spec.typed_variables modules.now nesting so_far x.now) result }
{
    let list = x.names.as_slice();
    let naming = so_far.naming(alloc, first_name(list))?;
    let site = Site {
        alloc,
        imports: modules,
        scope: &so_far,
        levels: nesting,
    };
    let written = written_type(site, &naming, 0, x.of.get())?;
    variables(alloc, &written.of, so_far, list)
}

/// Variables of one type.
#[tactic(auto, unfolding(crate::specs::Declarations::variables_rule))]
fn typed_names(
    alloc: Global,
    modules: &Imports,
    nesting: u32,
    so_far: Scope,
    x: &TypedNames,
) -> Result<Scope, Rejected>
    ensures { Judges (spec.variables_rule modules.now nesting so_far x.now) result }
{
    let _names = variable_names(alloc, &so_far.block, x.names.as_slice())?;
    typed_variables(alloc, modules, nesting, so_far, x)
}

fn all_variables(
    alloc: Global,
    modules: &Imports,
    nesting: u32,
    first: Scope,
    lists: &[TypedNames],
) -> Result<Scope, Rejected>
    ensures { Judges (through (spec.variables_rule modules.now nesting) first lists.now) result }
{
    let mut so_far = first;
    for x in lists {
        so_far = typed_names(alloc, modules, nesting, so_far, x)?;
    }
    Ok(so_far)
}

/// The constants, types and variables of a module or of the procedure that was entered (Wirth, The Programming Language
/// Oberon, Oberon-07). `nesting` says how many more constructs may nest.
///
/// `Rejected::Rule`: `DeclaredTwice` where the block has a name, or a record a field's; `NotConstant` for a constant or a
/// length that is none or would trap; `Types` where types don't fit; `UnknownName`, `LeftOut` and `NotExported` for a name
/// that stands for nothing; `Size` for a length, a type or variables of too many cells, a type of too many levels, or
/// where more constructs nest than may. `Rejected::Memory` where memory was refused. The scope is gone then.
#[tactic(auto, unfolding(crate::specs::Declarations::declarations_rule))]
pub fn declare_all(
    alloc: Global,
    modules: &Imports,
    nesting: u32,
    scope: Scope,
    d: &Declarations,
) -> Result<Scope, Rejected>
    ensures { Judges (spec.declarations_rule modules.now nesting scope d.now) result }
{
    let scope = constants(alloc, modules, nesting, scope, d.constants.as_slice())?;
    let scope = types(alloc, modules, nesting, scope, d.types.as_slice())?;
    all_variables(alloc, modules, nesting, scope, d.variables.as_slice())
}

/// What a module declares but for its procedures, as `declare_module`, for rules that go on from there.
#[tactic(auto, unfolding(crate::specs::Declarations::module_rule))]
pub fn declared_by(alloc: Global, modules: &Imports, tree: &Module) -> Result<Scope, Rejected>
    ensures { Judges (spec.module_rule modules.now tree.now) result }
{
    if standard_named(&tree.name.name) != StandardName::Other {
        return Err(Rejected::Rule(broken(RuleCode::DeclaredTwice, tree.name.span)));
    }
    let first = Scope::opening(alloc, tree.name.name.copy(alloc)?);
    let scope = imports(alloc, modules, first, tree.imports.as_slice())?;
    declare_all(alloc, modules, MAX_NESTING, scope, tree.declarations.get())
}

/// What a module declares but for its procedures, over the modules that are loaded (Wirth, The Programming Language Oberon,
/// Oberon-07).
///
/// `Rejected::Rule` has the code of a broken rule and the place of a token there: those of `declare_all`, and for imports
/// `ImportsItself`, `NotLoaded`, `LeftOut` (SYSTEM) and `DeclaredTwice`, the last also for a module named In, Out or SYSTEM.
/// `Rejected::Memory` where memory was refused.
pub fn declare_module(alloc: Global, modules: &Imports, tree: &Module) -> Result<Scope, Rejected>
    // What is answered is what the module declares.
    ensures found { IfOk result (λ d. gives (spec.module_rule modules.now tree.now) d) }
    // Where the rules give a scope it is answered, unless memory runs out.
    ensures only { (d : Scope) → gives (spec.module_rule modules.now tree.now) d → AnswersTree d result }
    // The code of a rejection is broken, and then the rules give none.
    ensures broken { BrokenOnly (spec.module_rule modules.now tree.now) result }
{
    declared_by(alloc, modules, tree)
}
