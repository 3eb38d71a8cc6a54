//! Links between modules of a session.

use ob_base::{Items, Text};
use ob_link::{CommandName, KeyedImport, LinkFault, Looked, Modules, Ready, SessionModule};
use ob_mean::TypedModule;
use ob_types::{Basic, Exported, Formal, FormalKind, Interface, Key, ObType, Object, Signature};
use std::alloc::{AllocError, Global};
use std::test::Fail;

fn text(alloc: Global, chars: &[u8]) -> Result<Text, AllocError> {
    Text::from_slice(alloc, chars)
}

/// A module without variables or procedures, whose interface is its name alone.
fn module(
    alloc: Global,
    name: &[u8],
    imports: Items<KeyedImport>,
) -> Result<SessionModule, AllocError> {
    let interface = Interface::new(alloc, text(alloc, name)?, Items::new(alloc))?;
    let tree = TypedModule {
        name: text(alloc, name)?,
        variables: Items::new(alloc),
        procedures: Items::new(alloc),
        exported: Items::new(alloc),
        body: Items::new(alloc),
    };
    Ok(SessionModule::new(interface, tree, imports))
}

/// What a module shows to others.
#[derive(Clone, Copy)]
enum Shown {
    Nothing,
    /// A variable x, an INTEGER.
    Variable,
}

/// The key of a module of this name that shows this.
fn key(alloc: Global, name: &[u8], shown: Shown) -> Result<Key, AllocError> {
    let mut exports = Items::new(alloc);
    match shown {
        Shown::Nothing => {}
        Shown::Variable => {
            let variable = Object::Variable(ObType::basic(Basic::Integer));
            add(alloc, &mut exports, b"x", variable)?;
        }
    }
    let interface = Interface::new(alloc, text(alloc, name)?, exports)?;
    Key::new(&interface)
}

/// An import of a module that showed this.
fn imports(alloc: Global, name: &[u8], shown: Shown) -> Result<Items<KeyedImport>, AllocError> {
    let mut so_far = Items::new(alloc);
    so_far.push(KeyedImport::new(text(alloc, name)?, key(alloc, name, shown)?))?;
    Ok(so_far)
}

/// The name that a look-up answers, or none.
fn is_named(fault: &Option<Text>, name: &[u8]) -> bool {
    match fault {
        Some(found) => found.as_slice() == name,
        None => false,
    }
}

/// A, and B over it.
fn two(alloc: Global) -> Result<Modules, AllocError> {
    let mut modules = Modules::new(alloc);
    modules.install(module(alloc, b"A", Items::new(alloc))?)?;
    modules.install(module(alloc, b"B", imports(alloc, b"A", Shown::Nothing)?)?)?;
    Ok(modules)
}

/// Where a module of this name stands.
fn place(alloc: Global, modules: &Modules, name: &[u8]) -> Result<usize, AllocError> {
    Ok(modules.place_of(&text(alloc, name)?))
}

/// Whether a module imports the first one alone.
fn is_over_first(modules: &Modules, found: Option<&SessionModule>) -> Result<bool, AllocError> {
    match found {
        Some(found) => {
            let numbers = modules.numbers(found.imports())?;
            Ok(numbers.as_slice() == [0].as_slice())
        }
        None => Ok(false),
    }
}

fn is_found_over_first(alloc: Global, modules: &Modules, name: &[u8]) -> Result<bool, AllocError> {
    is_over_first(modules, modules.find(&text(alloc, name)?))
}

/// Each module is found, by its number too.
#[test]
fn modules_are_found(rt: HostRuntime) -> Result<(), Fail> {
    let modules = two(rt.alloc())?;
    assert_eq!(rt; modules.as_slice().len(), 2);
    assert_eq!(rt; place(rt.alloc(), &modules, b"B")?, 1);
    assert_eq!(rt; place(rt.alloc(), &modules, b"C")?, 2);
    assert!(rt; is_found_over_first(rt.alloc(), &modules, b"B")?);
    Ok(())
}

/// Whether an import of a module that showed nothing links.
fn links(alloc: Global, modules: &Modules, name: &[u8]) -> Result<bool, AllocError> {
    let imports = imports(alloc, name, Shown::Nothing)?;
    Ok(modules.link_fault(imports.as_slice())?.is_none())
}

/// Whether this module is why an import of a module that showed this does not link.
fn is_fault(
    alloc: Global,
    modules: &Modules,
    name: &[u8],
    shown: Shown,
    fault: &[u8],
) -> Result<bool, AllocError> {
    let imports = imports(alloc, name, shown)?;
    Ok(is_named(&modules.link_fault(imports.as_slice())?, fault))
}

/// An import links where the module has the recorded key.
#[test]
fn keys_link(rt: HostRuntime) -> Result<(), Fail> {
    let modules = two(rt.alloc())?;
    assert!(rt; links(rt.alloc(), &modules, b"B")?);
    for (name, shown) in [
        (b"B".as_slice(), Shown::Variable),
        (b"C".as_slice(), Shown::Nothing),
    ] {
        assert!(rt; is_fault(rt.alloc(), &modules, name, shown, name)?);
    }
    Ok(())
}

/// A, and B over another A.
fn two_apart(alloc: Global) -> Result<Modules, AllocError> {
    let mut modules = two(alloc)?;
    modules.install(module(alloc, b"B", imports(alloc, b"A", Shown::Variable)?)?)?;
    Ok(modules)
}

/// The same after another import.
#[test]
fn keys_link_behind_an_import(rt: HostRuntime) -> Result<(), Fail> {
    let modules = two_apart(rt.alloc())?;
    assert_eq!(rt; modules.as_slice().len(), 2);
    assert!(rt; is_fault(rt.alloc(), &modules, b"B", Shown::Nothing, b"A")?);
    Ok(())
}

/// Which modules may run, and which reach A: each by its number.
fn flags(modules: &Modules, a: &Text) -> Result<(Vec<bool>, Vec<bool>), AllocError> {
    Ok((modules.may_run()?, modules.reaching(a)?))
}

/// Whether this name is the fault behind the module of this number.
fn has_fault(faults: &[Option<Text>], number: usize, name: &[u8]) -> bool {
    match faults.get(number) {
        Some(fault) => is_named(fault, name),
        None => false,
    }
}

/// A module runs where its imports link, and theirs.
#[test]
fn modules_may_run(rt: HostRuntime) -> Result<(), Fail> {
    let alloc = rt.alloc();
    let mut modules = two_apart(alloc)?;
    modules.install(module(alloc, b"C", imports(alloc, b"B", Shown::Nothing)?)?)?;
    let (may_run, reaching) = flags(&modules, &text(alloc, b"A")?)?;
    assert!(rt; may_run.as_slice() == [true, false, false].as_slice());
    assert!(rt; reaching.as_slice() == [false, true, true].as_slice());
    let faults = modules.faults()?;
    assert!(rt; has_fault(faults.as_slice(), 2, b"A"));
    Ok(())
}

/// A procedure with so many parameters, and this result.
fn procedure(alloc: Global, parameters: usize, basic: Option<Basic>) -> Result<Object, AllocError> {
    let mut formals = Items::new(alloc);
    for _parameter in 0..parameters {
        formals.push(Formal {
            kind: FormalKind::Value,
            of: ObType::basic(Basic::Integer),
        })?;
    }
    let signature = Signature {
        formals,
        result: basic,
    };
    Ok(Object::Procedure(signature))
}

fn add(
    alloc: Global,
    exports: &mut Items<Exported>,
    name: &[u8],
    object: Object,
) -> Result<(), AllocError> {
    let name = text(alloc, name)?;
    exports.push(Exported { name, object })?;
    Ok(())
}

/// A function, a variable, a procedure with a parameter, and a command.
fn exports(alloc: Global) -> Result<Items<Exported>, AllocError> {
    let mut exports = Items::new(alloc);
    let function = procedure(alloc, 0, Some(Basic::Integer))?;
    add(alloc, &mut exports, b"F", function)?;
    let variable = Object::Variable(ObType::basic(Basic::Integer));
    add(alloc, &mut exports, b"x", variable)?;
    let passed = procedure(alloc, 1, None)?;
    add(alloc, &mut exports, b"Q", passed)?;
    let command = procedure(alloc, 0, None)?;
    add(alloc, &mut exports, b"P", command)?;
    Ok(exports)
}

/// The numbers of the exported procedures.
fn exported(alloc: Global) -> Result<Items<usize>, AllocError> {
    let mut exported = Items::new(alloc);
    for number in [1, 2, 4] {
        exported.push(number)?;
    }
    Ok(exported)
}

/// A module with these exports, over an A that showed this.
fn over(alloc: Global, name: &[u8], shown: Shown) -> Result<SessionModule, AllocError> {
    let interface = Interface::new(alloc, text(alloc, name)?, exports(alloc)?)?;
    let tree = TypedModule {
        name: text(alloc, name)?,
        variables: Items::new(alloc),
        procedures: Items::new(alloc),
        exported: exported(alloc)?,
        body: Items::new(alloc),
    };
    Ok(SessionModule::new(interface, tree, imports(alloc, b"A", shown)?))
}

/// A, M over it, and N over another A.
fn three(alloc: Global) -> Result<Modules, AllocError> {
    let mut modules = Modules::new(alloc);
    modules.install(module(alloc, b"A", Items::new(alloc))?)?;
    modules.install(over(alloc, b"M", Shown::Nothing)?)?;
    modules.install(over(alloc, b"N", Shown::Variable)?)?;
    Ok(modules)
}

/// The number of a fault.
fn number_of(fault: &LinkFault) -> u32 {
    match fault {
        LinkFault::NotLoaded(_) => 30,
        LinkFault::NoCommand(_, _) => 31,
        LinkFault::OtherKey(_) => 32,
    }
}

/// The module that a fault names.
fn home_of(fault: &LinkFault) -> &[u8] {
    match fault {
        LinkFault::NotLoaded(home) => home.as_slice(),
        LinkFault::NoCommand(home, _) => home.as_slice(),
        LinkFault::OtherKey(home) => home.as_slice(),
    }
}

/// Whether a look-up failed for this.
fn is_missing(looked: &Looked, number: u32, home: &[u8]) -> bool {
    match looked {
        Looked::Found(_) => false,
        Looked::Missing(fault) => number_of(fault) == number && home_of(fault) == home,
    }
}

fn look(alloc: Global, modules: &Modules, home: &[u8], name: &[u8]) -> Result<Looked, AllocError> {
    modules.command(&text(alloc, home)?, &text(alloc, name)?)
}

/// Whether it is the procedure of this number in the module of that number.
fn is_found(looked: &Looked, home: usize, procedure: usize) -> bool {
    match looked {
        Looked::Found(command) => command.home() == home && command.procedure() == procedure,
        Looked::Missing(_) => false,
    }
}

/// A command is an exported procedure without parameters and result, in a module that links.
#[test]
fn commands_are_found(rt: HostRuntime) -> Result<(), Fail> {
    let modules = three(rt.alloc())?;
    assert!(rt; is_found(&look(rt.alloc(), &modules, b"M", b"P")?, 1, 4));
    for (home, name, number, named) in [
        (b"C".as_slice(), b"P".as_slice(), 30, b"C".as_slice()),
        (b"M".as_slice(), b"R".as_slice(), 31, b"M".as_slice()),
        (b"M".as_slice(), b"F".as_slice(), 31, b"M".as_slice()),
        (b"M".as_slice(), b"Q".as_slice(), 31, b"M".as_slice()),
        (b"M".as_slice(), b"x".as_slice(), 31, b"M".as_slice()),
        (b"In".as_slice(), b"Int".as_slice(), 31, b"In".as_slice()),
        (b"Out".as_slice(), b"Ln".as_slice(), 31, b"Out".as_slice()),
        (b"N".as_slice(), b"P".as_slice(), 32, b"A".as_slice()),
    ] {
        assert!(rt; is_missing(&look(rt.alloc(), &modules, home, name)?, number, named));
    }
    Ok(())
}

fn command(alloc: Global, home: &[u8], name: &[u8]) -> Result<CommandName, AllocError> {
    Ok(CommandName::new(text(alloc, home)?, text(alloc, name)?))
}

fn ready(alloc: Global, modules: &Modules, names: &[(&[u8], &[u8])]) -> Result<Ready, AllocError> {
    let mut commands = Vec::new(alloc);
    for (home, name) in names {
        commands.push(command(alloc, home, name)?)?;
    }
    modules.ready(commands.as_slice())
}

/// How many can run, if all can.
fn running(ready: &Ready) -> Option<usize> {
    match ready {
        Ready::Runs(commands) => Some(commands.len()),
        Ready::Faulty(_) => None,
    }
}

/// The number of the fault, if one can't.
fn fault_of(ready: &Ready) -> Option<u32> {
    match ready {
        Ready::Runs(_) => None,
        Ready::Faulty(fault) => Some(number_of(fault)),
    }
}

/// All commands run, or none for the first that can't.
#[test]
fn commands_are_ready(rt: HostRuntime) -> Result<(), Fail> {
    let modules = three(rt.alloc())?;
    let plain = (b"M".as_slice(), b"P".as_slice());
    let function = (b"M".as_slice(), b"F".as_slice());
    let unknown = (b"C".as_slice(), b"P".as_slice());
    assert_eq!(rt; running(&ready(rt.alloc(), &modules, &[])?), Some(0));
    assert_eq!(rt;
        running(&ready(rt.alloc(), &modules, &[plain, plain])?),
        Some(2)
    );
    let first = ready(rt.alloc(), &modules, &[plain, function, unknown])?;
    assert_eq!(rt; fault_of(&first), Some(31));
    let second = ready(rt.alloc(), &modules, &[plain, unknown, function])?;
    assert_eq!(rt; fault_of(&second), Some(30));
    Ok(())
}
