//! Modules that are loaded, and taken back.

ghost use Rattle.std.specs.Prelude.{◌≡◌, [], OnOk, OnErr, IfOk, IsTrue, length};
ghost use Rattle.ob_session.specs.Session as session;
ghost use Rattle.ob_link.specs.Exchange as spec;
ghost use Rattle.ob_link.specs.Faults.{fault_row};
ghost use Rattle.ob_link.specs.Runs.{may_run};
ghost use Rattle.ob_check_scope.specs.Imports.{added};

use crate::module::SessionModule;
use crate::modules::Modules;
use crate::table::Table;
use ob_base::Text;
use ob_check_scope::Imports;
use ob_types::Interface;
use std::alloc::AllocError;

impl Table {
    /// Loads a module, in the place of the one that has its name, which comes back, or after the others.
    fn exchange(&mut self, loaded: SessionModule) -> Result<Option<SessionModule>, AllocError>
        ensures ok { IfOk result (λ back. back ≡ session.find_module self.old loaded.interface.name) }
        ensures new { OnOk result (self.new ≡ session.with_module self.old loaded) }
        ensures err { OnErr result (self.new ≡ self.old) }
    {
        match self.number_of(loaded.interface().name()) {
            Some(number) => Ok(Some(self.replace(number, loaded))),
            None => {
                self.append(loaded)?;
                Ok(None)
            }
        }
    }

    /// Takes an exchange back, by what came back from it.
    fn restore(&mut self, back: Option<SessionModule>)
        requires { spec.IsExchanged self.old back }
        ensures { self.new ≡ spec.put_back self.old back }
    {
        match back {
            Some(before) => self.put_again(before),
            None => self.drop_last(),
        }
    }

    /// A module takes its place again.
    fn put_again(&mut self, before: SessionModule)
        requires { spec.HasName self.old before.interface.name }
        ensures { self.new ≡ session.with_module self.old before }
    {
        if let Some(number) = self.number_of(before.interface().name()) {
            self.replace(number, before);
        }
    }
}

/// What links, found anew; and a module as the rules see it takes its place among the others. Its names are looked up quickly, where
/// there is memory for that.
fn take_in(
    table: &Table,
    loaded: &mut Imports,
    interface: &Interface,
) -> Result<(Vec<Option<Text>>, Vec<bool>), AllocError>
    ensures faults { IfOk result (λ both. both.0.items ≡ fault_row table.now (length table.now)) }
    ensures runs { IfOk result (λ both. both.1.items ≡ may_run table.now) }
    ensures loaded { OnOk result (loaded.new ≡ added loaded.old (record { interface = interface.now; reached = [] })) }
    ensures err { OnErr result (loaded.new ≡ loaded.old) }
{
    let both = table.links()?;
    loaded.add(interface, &[])?;
    let _indexed = loaded.index_at(table.place_of(interface.name()));
    Ok(both)
}

impl Modules {
    /// Loads a module: it takes the place of the one that has its name, or comes after the others. What comes back says which
    /// modules then may run, by their numbers. Where the name is new, and the module and all others link, it looks at the
    /// imports of this module alone.
    ///
    /// # Errors
    ///
    /// Out of memory, which leaves the modules as they were.
    pub fn install(&mut self, loaded: SessionModule) -> Result<Vec<bool>, AllocError>
        ensures new { OnOk result (self.new ≡ session.with_module self.old loaded) }
        ensures runs { IfOk result (λ row. row.items ≡ may_run self.new) }
        ensures err { OnErr result (self.new ≡ self.old) }
    {
        if self.links_behind(&loaded)? {
            return self.install_linked(loaded);
        }
        self.install_anew(loaded)
    }

    /// Whether the name of this module is new, and it and all others link.
    fn links_behind(&self, loaded: &SessionModule) -> Result<bool, AllocError>
        ensures { IfOk result (λ b. IsTrue b → spec.LinksBehind self.now loaded.now) }
    {
        if !self.is_apart(loaded.interface().name()) {
            return Ok(false);
        }
        let fault = self.link_fault(loaded.imports())?;
        Ok(fault.is_none())
    }

    /// Loads such a module after the others.
    fn install_linked(&mut self, loaded: SessionModule) -> Result<Vec<bool>, AllocError>
        requires { spec.LinksBehind self.old loaded }
        ensures new { OnOk result (self.new ≡ session.with_module self.old loaded) }
        ensures runs { IfOk result (λ row. row.items ≡ may_run self.new) }
        ensures err { OnErr result (self.new ≡ self.old) }
    {
        self.faults.reserve(1)?;
        let runs = self.table.one_more_runs()?;
        let interface = loaded.interface().another()?;
        let number = self.table.as_slice().len();
        self.table.append(loaded)?;
        if let Err(error) = self.loaded.push(&interface, &[]) {
            self.table.drop_last();
            return Err(error);
        }
        let _indexed = self.loaded.index_at(number);
        match self.faults.push(None) {
            Ok(()) => Ok(runs),
            Err(_) => unreachable!(),
        }
    }

    /// Loads a module, and finds anew what links.
    fn install_anew(&mut self, loaded: SessionModule) -> Result<Vec<bool>, AllocError>
        ensures new { OnOk result (self.new ≡ session.with_module self.old loaded) }
        ensures runs { IfOk result (λ row. row.items ≡ may_run self.new) }
        ensures err { OnErr result (self.new ≡ self.old) }
    {
        let interface = loaded.interface().another()?;
        let before = self.table.exchange(loaded)?;
        match take_in(&self.table, &mut self.loaded, &interface) {
            Ok((faults, runs)) => {
                self.faults = faults;
                Ok(runs)
            }
            Err(error) => {
                self.table.restore(before);
                Err(error)
            }
        }
    }
}
