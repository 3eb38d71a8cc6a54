//! What modules reach.

ghost use Rattle.std.specs.Prelude.{◌≡◌, IfOk, IsTrue, slice_index_or, false};
ghost use Rattle.std.specs.List.{list_any};
ghost use Rattle.ob_session.specs.Session.{place_of};
ghost use Rattle.ob_link.specs.Reaching as spec;

use crate::linking::no_fault;
use crate::module::KeyedImport;
use crate::modules::Modules;
use ob_base::Text;
use std::alloc::AllocError;

/// The flag of the module of this number.
fn flag_at(flags: &[bool], number: usize) -> bool
    ensures { result ≡ slice_index_or flags.now number false }
{
    match flags.get(number) {
        Some(flag) => *flag,
        None => false,
    }
}

/// Whether each of two rows has the other's flags.
fn same_flags(row: &[bool], other: &[bool]) -> bool
    ensures { IsTrue result → row.now ≡ other.now }
{
    if row.len() != other.len() {
        return false;
    }
    for number in 0..row.len() {
        if row[number] != other[number] {
            return false;
        }
    }
    true
}

/// Whether one of these is up.
fn has_flag(flags: &[bool]) -> bool
    ensures { result ≡ list_any (λ b. b) flags.now }
{
    for flag in flags {
        if *flag {
            return true;
        }
    }
    false
}

impl Modules {
    /// The flag of the module of this name.
    fn flag_behind(&self, behind: &[bool], name: &Text) -> bool
        ensures { result ≡ slice_index_or behind.now (place_of self.now name.now) false }
    {
        if behind.is_empty() {
            return false;
        }
        flag_at(behind, self.place_of(name))
    }

    /// Whether an import reaches a module of this name, where these are the modules that do.
    fn reaches(&self, behind: &[bool], name: &Text, import: &KeyedImport) -> bool
        ensures { result ≡ spec.reaches_in self.now behind.now name.now import.now }
    {
        import.name().same(name) || self.flag_behind(behind, import.name())
    }

    /// Whether one of these imports does.
    fn any_reaches(&self, behind: &[bool], name: &Text, imports: &[KeyedImport]) -> bool
        ensures { result ≡ list_any (spec.reaches_in self.now behind.now name.now) imports.now }
    {
        for import in imports {
            if self.reaches(behind, name, import) {
                return true;
            }
        }
        false
    }

    /// The modules that do, through chains that are longer by an import.
    fn next_reaching(&self, behind: &[bool], name: &Text) -> Result<Vec<bool>, AllocError>
        ensures { IfOk result (λ row. row.items ≡ spec.next_reach_row self.now behind.now name.now) }
    {
        let mut so_far = Vec::new(self.alloc());
        for each in self.as_slice() {
            so_far.push(self.any_reaches(behind, name, each.imports()))?;
        }
        Ok(so_far)
    }

    /// The modules that import this name.
    fn first_reaching(&self, name: &Text) -> Result<Vec<bool>, AllocError>
        ensures { IfOk result (λ row. row.items ≡ spec.reach_row self.now 0 name.now) }
    {
        let none = Vec::new(self.alloc());
        self.next_reaching(none.as_slice(), name)
    }

    /// Whether no module of this name is loaded, and all modules link. Then none of them reaches one of that name.
    pub fn is_apart(&self, name: &Text) -> bool
        ensures { IsTrue result → spec.IsApart self.now name.now }
    {
        match self.table.number_of(name) {
            Some(_) => false,
            None => no_fault(self.faults.as_slice()),
        }
    }

    /// Then no module reaches one of that name.
    fn none_reaches(&self, name: &Text) -> Result<Vec<bool>, AllocError>
        requires { spec.IsApart self.now name.now }
        ensures { IfOk result (λ row. row.items ≡ spec.reaching self.now name.now) }
    {
        let mut so_far = Vec::new(self.alloc());
        for _module in self.as_slice() {
            so_far.push(false)?;
        }
        Ok(so_far)
    }

    /// Whether each module, by its number, reaches a module of this name by its imports and theirs. The module of that name
    /// need not be loaded. Where none imports it, that is seen by one pass over the modules; where none of its name is loaded
    /// and all modules link, without a look at their imports.
    ///
    /// # Errors
    ///
    /// Out of memory.
    pub fn reaching(&self, name: &Text) -> Result<Vec<bool>, AllocError>
        ensures { IfOk result (λ row. row.items ≡ spec.reaching self.now name.now) }
    {
        if self.is_apart(name) {
            return self.none_reaches(name);
        }
        let row = self.first_reaching(name)?;
        if has_flag(row.as_slice()) {
            return self.reaching_in_rows(row, name);
        }
        Ok(row)
    }

    /// The same, row by row from the first.
    fn reaching_in_rows(&self, first: Vec<bool>, name: &Text) -> Result<Vec<bool>, AllocError>
        requires { first.items ≡ spec.reach_row self.now 0 name.now }
        ensures { IfOk result (λ row. row.items ≡ spec.reaching self.now name.now) }
    {
        let mut row = first;
        for _length in 0..self.as_slice().len() {
            let next = self.next_reaching(row.as_slice(), name)?;
            if same_flags(row.as_slice(), next.as_slice()) {
                return Ok(next);
            }
            row = next;
        }
        Ok(row)
    }
}
