//! What is seen at a place of a module.

ghost use Rattle.std.specs.Prelude.{◌≡◌, ◌+◌, ◌∷◌, reverse, None, Some, length, OnOk, IfOk, option_copied};
ghost use Rattle.ob_check_scope.specs.Block.{find};
ghost use Rattle.ob_check_scope.specs.Scope as spec;
ghost use Rattle.ob_check_scope.specs.Stack.{is_empty};

use crate::block::{Block, Entry, Standing};
use crate::predeclared::{Predeclared, predeclared_named};
use crate::stack::Stack;
use ob_base::{Items, Text};
use ob_mean::Variable;
use ob_types::RecordName;
use std::alloc::{AllocError, Global};

/// What is declared at a place of a module, from the module's block inwards.
#[derive(Drop)]
pub struct Scope {
    pub module_name: Text,
    /// The names of the procedures round the place, the innermost on top.
    pub enclosing: Stack<Text>,
    /// The innermost block.
    pub block: Block,
    /// The blocks round it: none in the declarations and the body of the module.
    pub around: Stack<Block>,
    /// How many modules are imported, but for In and Out.
    pub import_count: usize,
    /// How many variables of the module others see.
    pub exported_count: u32,
    /// How many variables of the module others don't see.
    pub own_count: u32,
    /// How many parameters and variables the innermost procedure has.
    pub local_count: usize,
    /// How many cells the variables of the innermost block take.
    pub cells_taken: u32,
}

/// The nearest declaration of a name in these blocks, of which the innermost is the last.
fn nearest<'a>(blocks: &'a [Block], name: &Text) -> Option<&'a Entry>
    ensures { option_copied result ≡ spec.nearest (reverse blocks.now) name.now }
{
    let name = name.as_slice();
    let mut i = blocks.len();
    while i > 0 {
        i -= 1;
        if let Some(entry) = blocks[i].find_spelled(name) {
            return Some(entry);
        }
    }
    None
}

fn is_of_module(standing: Standing) -> bool
    ensures { result ≡ spec.is_of_module standing }
{
    match standing {
        Standing::Exported(_) | Standing::Own(_) => true,
        Standing::Local(_) | Standing::ByParameter(_) | Standing::ReadOnly(_) => false,
    }
}

/// Whether a variable of this standing may be written.
pub fn is_writable(standing: Standing) -> bool
    ensures { result ≡ spec.is_writable standing }
{
    match standing {
        Standing::ReadOnly(_) => false,
        _ => true,
    }
}

fn is_seen_inside(entry: &Entry) -> bool
    ensures { result ≡ spec.is_seen_inside entry.now }
{
    match entry {
        Entry::Variable(_, standing) => is_of_module(*standing),
        _ => true,
    }
}

fn seen_inside(entry: Option<&Entry>) -> Option<&Entry>
    ensures { option_copied result ≡ spec.seen_inside (option_copied entry.entry) }
{
    match entry {
        Some(entry) => {
            if is_seen_inside(entry) {
                Some(entry)
            } else {
                None
            }
        }
        None => None,
    }
}

impl Scope {
    /// Before the first declaration of a module of this name.
    pub fn opening(alloc: Global, module_name: Text) -> Scope
        ensures { result ≡ spec.opening module_name }
    {
        Scope {
            module_name,
            enclosing: Stack::new(alloc),
            block: Block::new(alloc),
            around: Stack::new(alloc),
            import_count: 0,
            exported_count: 0,
            own_count: 0,
            local_count: 0,
            cells_taken: 0,
        }
    }

    /// What a name stands for, if it stands for anything. It takes a step for each block.
    #[tactic(auto, unfolding(crate::specs::Scope::seen))]
    pub fn seen(&self, name: &Text) -> Option<&Entry>
        ensures { option_copied result ≡ spec.seen self.now name.now }
    {
        match self.block.find(name) {
            Some(entry) => Some(entry),
            None => seen_inside(nearest(self.around.as_slice(), name)),
        }
    }

    /// What a name that stands for nothing is before any module.
    #[tactic(auto, unfolding(crate::specs::Scope::outer))]
    pub fn outer(&self, name: &Text) -> Predeclared
        ensures { result ≡ spec.outer self.now name.now }
    {
        match nearest(self.around.as_slice(), name) {
            Some(_) => Predeclared::Unknown,
            None => predeclared_named(name),
        }
    }

    /// What a name stands for in a heading, after these parameters.
    #[tactic(auto, unfolding(crate::specs::Scope::seen, crate::specs::Scope::in_heading))]
    pub fn seen_in_heading<'a>(&'a self, parameters: &'a Block, name: &Text) -> Option<&'a Entry>
        ensures { option_copied result ≡ spec.seen (spec.in_heading self.now parameters.now) name.now }
    {
        match parameters.find(name) {
            Some(entry) => Some(entry),
            None => seen_inside(self.declared(name)),
        }
    }

    /// What a name that stands for nothing in a heading is before any module.
    #[tactic(auto, unfolding(crate::specs::Scope::outer, crate::specs::Scope::in_heading))]
    pub fn outer_in_heading(&self, parameters: &Block, name: &Text) -> Predeclared
        ensures { result ≡ spec.outer (spec.in_heading self.now parameters.now) name.now }
    {
        match self.declared(name) {
            Some(_) => Predeclared::Unknown,
            None => predeclared_named(name),
        }
    }

    /// The nearest declaration of a name in the innermost block and those round it.
    fn declared(&self, name: &Text) -> Option<&Entry>
        ensures { option_copied result ≡ spec.nearest (self.now.block ∷ self.now.around) name.now }
    {
        match self.block.find(name) {
            Some(entry) => Some(entry),
            None => nearest(self.around.as_slice(), name),
        }
    }

    /// The variable of a standing. Every variable of the module has to be declared by then.
    pub fn variable_of(&self, standing: Standing) -> Variable
        ensures { result ≡ spec.variable_of self.now standing }
    {
        match standing {
            Standing::Exported(i) => Variable::OfModule(i as usize),
            Standing::Own(i) => Variable::OfModule(self.exported_count as usize + i as usize),
            Standing::Local(i) => Variable::OfProcedure(i),
            Standing::ByParameter(i) | Standing::ReadOnly(i) => Variable::ByParameter(i),
        }
    }

    /// Whether the place is in the declarations or the body of the module.
    pub fn is_outermost(&self) -> bool
        ensures { result ≡ is_empty self.now.around }
    {
        self.around.is_empty()
    }

    /// One declaration more in the innermost block, of a name that it doesn't have. In a procedure the mark has no effect.
    /// Or lack of memory, and then the scope is to be dropped.
    pub fn declare(
        &mut self,
        alloc: Global,
        name: &Text,
        mark: bool,
        entry: Entry,
    ) -> Result<(), AllocError>
        requires { find self.old.block name.now ≡ None }
        ensures ok { OnOk result (self.new ≡ spec.with_entry self.old name.now mark entry) }
    {
        let exported = self.is_outermost() && mark;
        self.block.declare(alloc, name, exported, entry)
    }

    /// Inside a procedure of this name, after its parameters. Or lack of memory.
    pub fn enter(self, alloc: Global, name: &Text, parameters: Block) -> Result<Scope, AllocError>
        ensures { IfOk result (λ s. s ≡ spec.entered self name.now parameters) }
    {
        let mut inside = self;
        inside.enclosing.push(name.copy(alloc)?)?;
        let locals = parameters.declared().len();
        let block = std::mem::replace(&mut inside.block, parameters);
        inside.around.push(block)?;
        inside.local_count = locals;
        inside.cells_taken = 0;
        Ok(inside)
    }

    /// Behind the innermost procedure again.
    #[tactic(auto, unfolding(crate::specs::Scope::left))]
    pub fn leave(self) -> Scope
        ensures { result ≡ spec.left self }
    {
        let mut outside = self;
        if outside.enclosing.is_empty() {
            return outside;
        }
        match outside.around.pop() {
            Some(block) => {
                outside.enclosing.pop();
                outside.block = block;
                outside
            }
            None => outside,
        }
    }

    /// The name of the first record type in the declaration of a name, or lack of memory.
    pub fn naming(&self, alloc: Global, declared: &[u8]) -> Result<RecordName, AllocError>
        ensures { IfOk result (λ n. n ≡ spec.naming self.now declared.now) }
    {
        Ok(RecordName {
            module_name: self.module_name.copy(alloc)?,
            enclosing: copy_names(alloc, self.enclosing.as_slice())?,
            declared: Text::from_slice(alloc, declared)?,
            before: 0,
        })
    }
}

fn copy_names(alloc: Global, names: &[Text]) -> Result<Items<Text>, AllocError>
    ensures { IfOk result (λ c. c ≡ names.now) }
{
    let mut copies = Items::new(alloc);
    for name in names {
        copies.push(name.copy(alloc)?)?;
    }
    Ok(copies)
}
