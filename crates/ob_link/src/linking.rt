//! What links.

ghost use Rattle.std.specs.Prelude.{◌≡◌, ◌↔◌, [], ◌∷◌, ◌++◌, IfOk, IsTrue, None, length, map, slice_index_or, true};
ghost use Rattle.ob_session.specs.Session.{Module};
ghost use Rattle.ob_session.specs.Session as session;
ghost use Rattle.ob_link.specs.Faults as spec;
ghost use Rattle.ob_link.specs.Runs.{may_run};

use crate::module::KeyedImport;
use crate::modules::Modules;
use crate::table::Table;
use ob_base::Text;
use std::alloc::{AllocError, Global};

/// What is behind the module of this number.
fn fault_at(
    alloc: Global,
    behind: &[Option<Text>],
    number: usize,
) -> Result<Option<Text>, AllocError>
    ensures { IfOk result (λ f. f ≡ slice_index_or behind.now number None) }
{
    match behind.get(number) {
        Some(Some(name)) => Ok(Some(name.copy(alloc)?)),
        _ => Ok(None),
    }
}

/// Whether two faults are one.
fn same_fault(one: &Option<Text>, other: &Option<Text>) -> bool
    ensures { IsTrue result ↔ (one.now ≡ other.now) }
{
    match (one, other) {
        (None, None) => true,
        (Some(one), Some(other)) => one.same(other),
        _ => false,
    }
}

/// Whether each of two rows has the other's faults.
fn same_faults(row: &[Option<Text>], other: &[Option<Text>]) -> bool
    ensures { IsTrue result → row.now ≡ other.now }
{
    if row.len() != other.len() {
        return false;
    }
    for number in 0..row.len() {
        if !same_fault(&row[number], &other[number]) {
            return false;
        }
    }
    true
}

/// Whether none of these is a fault.
pub(crate) fn no_fault(row: &[Option<Text>]) -> bool
    ensures { result ≡ spec.all_none row.now }
{
    for fault in row {
        if fault.is_some() {
            return false;
        }
    }
    true
}

impl Table {
    /// What is behind the module of this name.
    fn fault_behind(&self, behind: &[Option<Text>], name: &Text) -> Result<Option<Text>, AllocError>
        ensures { IfOk result (λ f. f ≡ slice_index_or behind.now (session.place_of self.now name.now) None) }
    {
        if behind.is_empty() {
            return Ok(None);
        }
        fault_at(self.alloc(), behind, self.place_of(name))
    }

    /// The fault of an import, where these are the faults behind each module.
    fn fault_of(
        &self,
        behind: &[Option<Text>],
        import: &KeyedImport,
    ) -> Result<Option<Text>, AllocError>
        ensures { IfOk result (λ f. f ≡ spec.fault_in self.now behind.now import.now) }
    {
        match self.find(import.name()) {
            Some(found) => {
                if import.key().is_of(self.alloc(), found.interface())? {
                    self.fault_behind(behind, import.name())
                } else {
                    Ok(Some(import.name().copy(self.alloc())?))
                }
            }
            None => Ok(Some(import.name().copy(self.alloc())?)),
        }
    }

    /// The first that one of these imports has.
    pub(crate) fn first_fault(
        &self,
        behind: &[Option<Text>],
        imports: &[KeyedImport],
    ) -> Result<Option<Text>, AllocError>
        ensures { IfOk result (λ f. f ≡ session.first_fault (spec.fault_in self.now behind.now) imports.now) }
    {
        for import in imports {
            if let Some(name) = self.fault_of(behind, import)? {
                return Ok(Some(name));
            }
        }
        Ok(None)
    }

    /// No fault behind any module.
    fn no_faults(&self) -> Result<Vec<Option<Text>>, AllocError>
        ensures { IfOk result (λ row. row.items ≡ spec.fault_row self.now 0) }
    {
        let mut so_far = Vec::new(self.alloc());
        for _module in self.as_slice() {
            so_far.push(None)?;
        }
        Ok(so_far)
    }

    /// The faults behind each module, through chains that are longer by an import.
    pub(crate) fn next_faults(
        &self,
        behind: &[Option<Text>],
    ) -> Result<Vec<Option<Text>>, AllocError>
        ensures { IfOk result (λ row. row.items ≡ spec.next_row self.now behind.now) }
    {
        let mut so_far = Vec::new(self.alloc());
        for each in self.as_slice() {
            so_far.push(self.first_fault(behind, each.imports())?)?;
        }
        Ok(so_far)
    }

    /// The same where nothing is known behind any module.
    fn first_faults(&self) -> Result<Vec<Option<Text>>, AllocError>
        ensures { IfOk result (λ row. row.items ≡ spec.next_row self.now []) }
    {
        let none = Vec::new(self.alloc());
        self.next_faults(none.as_slice())
    }

    /// The faults behind each module, through chains of as many imports as there are modules. Where no import has a fault of
    /// its own, there is none.
    pub(crate) fn last_faults(&self) -> Result<Vec<Option<Text>>, AllocError>
        ensures { IfOk result (λ row. row.items ≡ spec.fault_row self.now (length self.now)) }
    {
        let first = self.first_faults()?;
        if no_fault(first.as_slice()) {
            return Ok(first);
        }
        self.faults_in_rows()
    }

    /// The same, row by row. A row that gives itself gives no other.
    fn faults_in_rows(&self) -> Result<Vec<Option<Text>>, AllocError>
        ensures { IfOk result (λ row. row.items ≡ spec.fault_row self.now (length self.now)) }
    {
        let mut behind = self.no_faults()?;
        for _length in 0..self.as_slice().len() {
            let next = self.next_faults(behind.as_slice())?;
            if same_faults(behind.as_slice(), next.as_slice()) {
                return Ok(next);
            }
            behind = next;
        }
        Ok(behind)
    }

    /// Whether the imports of each module link, where these are the faults behind each.
    fn runs_by(&self, faults: &[Option<Text>]) -> Result<Vec<bool>, AllocError>
        requires { faults.now ≡ spec.fault_row self.now (length self.now) }
        ensures { IfOk result (λ row. row.items ≡ may_run self.now) }
    {
        if no_fault(faults) {
            return self.all_run();
        }
        self.runs_by_faults(faults)
    }

    /// That each module may run.
    fn all_run(&self) -> Result<Vec<bool>, AllocError>
        ensures { IfOk result (λ row. row.items ≡ map (λ (m : Module). true) self.now) }
    {
        let mut so_far = Vec::new(self.alloc());
        for _module in self.as_slice() {
            so_far.push(true)?;
        }
        Ok(so_far)
    }

    /// That each module may run, and one more.
    pub(crate) fn one_more_runs(&self) -> Result<Vec<bool>, AllocError>
        ensures { IfOk result (λ row. row.items ≡ map (λ (m : Module). true) self.now ++ true ∷ []) }
    {
        let mut runs = self.all_run()?;
        runs.push(true)?;
        Ok(runs)
    }

    /// The same as the faults say.
    fn runs_by_faults(&self, behind: &[Option<Text>]) -> Result<Vec<bool>, AllocError>
        requires { behind.now ≡ spec.fault_row self.now (length self.now) }
        ensures { IfOk result (λ row. row.items ≡ may_run self.now) }
    {
        let faults = self.next_faults(behind)?;
        let mut so_far = Vec::new(self.alloc());
        for fault in faults.as_slice() {
            so_far.push(fault.is_none())?;
        }
        Ok(so_far)
    }

    /// What links, found anew: the faults behind each module, and whether the imports of each link.
    pub(crate) fn links(&self) -> Result<(Vec<Option<Text>>, Vec<bool>), AllocError>
        ensures faults { IfOk result (λ both. both.0.items ≡ spec.fault_row self.now (length self.now)) }
        ensures runs { IfOk result (λ both. both.1.items ≡ may_run self.now) }
    {
        let faults = self.last_faults()?;
        let runs = self.runs_by(faults.as_slice())?;
        Ok((faults, runs))
    }
}

impl Modules {
    /// Whether imports link: the name of the first module that is reached through them, in their order, depth first, and is
    /// not loaded with the key that its client recorded; or none, where each is. It looks at these imports alone.
    ///
    /// # Errors
    ///
    /// Out of memory.
    pub fn link_fault(&self, imports: &[KeyedImport]) -> Result<Option<Text>, AllocError>
        ensures { IfOk result (λ f. f ≡ session.link_fault self.now imports.now) }
    {
        self.table.first_fault(self.faults.as_slice(), imports)
    }

    /// What `link_fault` answers for the imports of each module, by the module's number.
    ///
    /// # Errors
    ///
    /// Out of memory.
    pub fn faults(&self) -> Result<Vec<Option<Text>>, AllocError>
        ensures { IfOk result (λ row. row.items ≡ map (λ (m : Module). session.link_fault self.now m.imports) self.now) }
    {
        self.table.next_faults(self.faults.as_slice())
    }

    /// Whether the imports of each module link, by the module's number.
    ///
    /// # Errors
    ///
    /// Out of memory.
    pub fn may_run(&self) -> Result<Vec<bool>, AllocError>
        ensures { IfOk result (λ row. row.items ≡ may_run self.now) }
    {
        self.table.runs_by(self.faults.as_slice())
    }
}
