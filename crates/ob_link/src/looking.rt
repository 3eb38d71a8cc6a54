//! Looking commands up.

ghost use Rattle.std.specs.Prelude.{◌≡◌, ◌<◌, ◌&&◌, IfOk, Some, None, slice_index};
ghost use Rattle.std.specs.Str.{bytes_eq};
ghost use Rattle.ob_mean.specs.Values.{Value};
ghost use Rattle.ob_session.specs.Cells as cells;
ghost use Rattle.ob_session.specs.Session as session;
ghost use Rattle.ob_link.specs.Looking.{fault_seen, looked_seen, ready_seen, in_store, storeless};

use crate::command::{Command, CommandName, LinkFault, Looked, Ready};
use crate::linking::no_fault;
use crate::module::SessionModule;
use crate::modules::Modules;
use ob_base::Text;
use ob_mean::TypedModule;
use ob_types::{Exported, Object, Signature};
use std::alloc::{AllocError, Global};

/// Whether a procedure has no parameters and no result.
fn is_plain(signature: &Signature) -> bool
    ensures { result ≡ cells.is_plain signature.now.formals signature.now.result }
{
    match signature.formals.as_slice() {
        [] => signature.result.is_none(),
        [_, ..] => false,
    }
}

fn is_command(object: &Object) -> bool
    ensures { result ≡ cells.is_command object.now }
{
    match object {
        Object::Procedure(signature) => is_plain(signature),
        _ => false,
    }
}

/// Whether this is the command of this name.
fn is_named(exported: &Exported, name: &Text) -> bool
    ensures { result ≡ (bytes_eq exported.now.name name.now && cells.is_command exported.now.object) }
{
    exported.name.same(name) && is_command(&exported.object)
}

/// The place after this one, where it is an exported procedure.
fn place_behind(object: &Object, place: usize) -> usize
    requires { place < usize.MAX }
    ensures { result ≡ cells.place_behind object.now place }
{
    match object {
        Object::Procedure(_) => place + 1,
        _ => place,
    }
}

/// The place of the command of this name among the exported procedures.
fn command_place(exports: &[Exported], name: &Text) -> Option<usize>
    ensures { result ≡ cells.command_place exports.now name.now 0 }
{
    let mut place = 0;
    for exported in exports {
        if is_named(exported, name) {
            return Some(place);
        }
        place = place_behind(&exported.object, place);
    }
    None
}

/// The number of the exported procedure at this place.
fn procedure_at(tree: &TypedModule, place: usize) -> usize
    ensures { result ≡ slice_index tree.now.exported place }
{
    match tree.exported.as_slice().get(place) {
        Some(number) => *number,
        None => 0,
    }
}

/// Whether this is In or Out.
fn is_given(name: &Text) -> bool
    ensures { result ≡ cells.is_given name.now }
{
    let name = name.as_slice();
    name == b"In".as_slice() || name == b"Out".as_slice()
}

fn no_command(alloc: Global, home: &Text, name: &Text) -> Result<LinkFault, AllocError>
    ensures { IfOk result (λ f. fault_seen f ≡ cells.NoCommand home.now name.now) }
{
    let home = home.copy(alloc)?;
    let name = name.copy(alloc)?;
    Ok(LinkFault::NoCommand(home, name))
}

/// What a command comes to whose module's imports have this fault.
fn linked(fault: Option<Text>, command: Command) -> Looked
    ensures { looked_seen result ≡ cells.linked fault command }
{
    match fault {
        Some(name) => Looked::Missing(LinkFault::OtherKey(name)),
        None => Looked::Found(command),
    }
}

impl Modules {
    /// What a command of a module that is not loaded comes to.
    fn looked_outside(&self, home: &Text, name: &Text) -> Result<Looked, AllocError>
        ensures { IfOk result (λ l. looked_seen l ≡ cells.looked_by (storeless self.now) (record { home = home.now; name = name.now }) None) }
    {
        if is_given(home) {
            return Ok(Looked::Missing(no_command(self.alloc(), home, name)?));
        }
        Ok(Looked::Missing(LinkFault::NotLoaded(home.copy(self.alloc())?)))
    }

    /// The fault of the imports of this module. Where all modules link, it is seen without a look at a key.
    fn fault_inside(&self, found: &SessionModule, home: &Text) -> Result<Option<Text>, AllocError>
        requires { session.find_module self.now home.now ≡ Some found.now }
        ensures { IfOk result (λ f. f ≡ session.link_fault self.now found.now.imports) }
    {
        if no_fault(self.faults.as_slice()) {
            return Ok(None);
        }
        self.link_fault(found.imports())
    }

    /// What a command of this module comes to.
    fn looked_inside(
        &self,
        found: &SessionModule,
        home: &Text,
        name: &Text,
    ) -> Result<Looked, AllocError>
        requires { session.find_module self.now home.now ≡ Some found.now }
        ensures { IfOk result (λ l. looked_seen l ≡ cells.looked_by (storeless self.now) (record { home = home.now; name = name.now }) (Some found.now)) }
    {
        match command_place(found.interface().exports(), name) {
            Some(place) => {
                let number = self.place_of(home);
                let fault = self.fault_inside(found, home)?;
                let command = Command::new(number, procedure_at(found.tree(), place));
                Ok(linked(fault, command))
            }
            None => Ok(Looked::Missing(no_command(self.alloc(), home, name)?)),
        }
    }

    /// What a command comes to.
    fn looked_up(&self, home: &Text, name: &Text) -> Result<Looked, AllocError>
        ensures { IfOk result (λ l. looked_seen l ≡ cells.looked_up (storeless self.now) (record { home = home.now; name = name.now })) }
    {
        match self.find(home) {
            Some(found) => self.looked_inside(found, home, name),
            None => self.looked_outside(home, name),
        }
    }

    /// The same of commands.
    fn all_ready(&self, commands: &[CommandName]) -> Result<Ready, AllocError>
        ensures { IfOk result (λ r. ready_seen r ≡ cells.all_ready (storeless self.now) commands.now) }
    {
        let mut so_far = Vec::new(self.alloc());
        for command in commands {
            match self.looked_up(command.home(), command.name())? {
                Looked::Found(found) => so_far.push(found)?,
                Looked::Missing(fault) => return Ok(Ready::Faulty(fault)),
            }
        }
        Ok(Ready::Runs(so_far))
    }

    /// What a command of this name in the module of that name comes to: the numbers of the module and of its procedure, or why
    /// it can't run: no such module is loaded, the module has no exported procedure of that name without parameters and result
    /// (In and Out have none), or its imports don't link.
    ///
    /// # Errors
    ///
    /// Out of memory.
    pub fn command(&self, home: &Text, name: &Text) -> Result<Looked, AllocError>
        ensures { IfOk result (λ l. (store : Value) → looked_seen l ≡ cells.looked_up (in_store self.now store) (record { home = home.now; name = name.now })) }
    {
        self.looked_up(home, name)
    }

    /// What commands come to: all of them, where each can run, or why the first that can't run can't. So each is looked up
    /// before the first runs.
    ///
    /// # Errors
    ///
    /// Out of memory.
    pub fn ready(&self, commands: &[CommandName]) -> Result<Ready, AllocError>
        ensures { IfOk result (λ r. (store : Value) → ready_seen r ≡ cells.all_ready (in_store self.now store) commands.now) }
    {
        self.all_ready(commands)
    }
}
