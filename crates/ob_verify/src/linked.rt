//! Whether loaded modules fit together.

ghost use Rattle.std.specs.Prelude.{◌≡◌, ℕ, ◌^◌, ◌<◌, IsTrue, true, Some, slice_get};
ghost use Rattle.ob_code.specs.Linked.{all_cells, AreLaid, Exports, IsAsKnown, Imports, IsLinked, runs_of};
ghost use Rattle.ob_code.specs.declared.instr.Entry.{Entry as EntryOf};
ghost use Rattle.ob_code.specs.declared.instr.Entries.{Entries as EntriesOf};
ghost use Rattle.ob_code.specs.declared.instr.LinkedModule.{LinkedModule as ModuleOf};

use crate::kinds::are_same;
use ob_code::instr::{Entries, Entry, LinkedModule};

/// Whether these modules are linked, where those may run that `may_run` says, by their numbers: their cells lie one after
/// the other, and each import of a module that may run may run too, and is as that module's code knows it. Modules with
/// 2^64 cells or more may be refused.
pub fn are_linked(modules: &[LinkedModule], may_run: &[bool]) -> bool
    ensures linked { IsTrue result → IsLinked modules.now (runs_of may_run.now) }
    ensures only { IsLinked modules.now (runs_of may_run.now) → all_cells modules.now < 2 ^ 64 → IsTrue result }
{
    are_laid(modules) && all_imports_fit(modules, may_run)
}

/// The modules' cells lie one after the other.
fn are_laid(modules: &[LinkedModule]) -> bool
    ensures laid { IsTrue result → AreLaid 0 modules.now }
    ensures only { AreLaid 0 modules.now → all_cells modules.now < 2 ^ 64 → IsTrue result }
{
    let mut from: usize = 0;
    for place in 0..modules.len() {
        let module = &modules[place];
        if module.cells != from {
            return false;
        }
        match from.checked_add(module.code.cells) {
            Some(behind) => from = behind,
            None => return false,
        }
    }
    true
}

fn all_imports_fit(modules: &[LinkedModule], may_run: &[bool]) -> bool
    ensures fit { IsTrue result → (home : ℕ) (l : ModuleOf) → slice_get modules.now home ≡ Some l → runs_of may_run.now home ≡ true → (i : ℕ) (known : EntriesOf) → slice_get l.code.imports.items i ≡ Some known → Imports modules.now (runs_of may_run.now) l i known }
    ensures only { ((home : ℕ) (l : ModuleOf) → slice_get modules.now home ≡ Some l → runs_of may_run.now home ≡ true → (i : ℕ) (known : EntriesOf) → slice_get l.code.imports.items i ≡ Some known → Imports modules.now (runs_of may_run.now) l i known) → IsTrue result }
{
    for home in 0..modules.len() {
        if runs(may_run, home) && !imports_fit(modules, may_run, &modules[home]) {
            return false;
        }
    }
    true
}

fn runs(may_run: &[bool], number: usize) -> bool
    ensures { result ≡ runs_of may_run.now number }
{
    match may_run.get(number) {
        Some(runs) => *runs,
        None => false,
    }
}

fn imports_fit(modules: &[LinkedModule], may_run: &[bool], client: &LinkedModule) -> bool
    ensures fit { IsTrue result → (i : ℕ) (known : EntriesOf) → slice_get client.now.code.imports.items i ≡ Some known → Imports modules.now (runs_of may_run.now) client.now i known }
    ensures only { ((i : ℕ) (known : EntriesOf) → slice_get client.now.code.imports.items i ≡ Some known → Imports modules.now (runs_of may_run.now) client.now i known) → IsTrue result }
{
    for import in 0..client.code.imports.len() {
        if !import_fits(
            modules,
            may_run,
            client,
            import,
            &client.code.imports[import],
        ) {
            return false;
        }
    }
    true
}

fn import_fits(
    modules: &[LinkedModule],
    may_run: &[bool],
    client: &LinkedModule,
    import: usize,
    known: &Entries,
) -> bool
    ensures fits { IsTrue result → Imports modules.now (runs_of may_run.now) client.now import known.now }
    ensures only { Imports modules.now (runs_of may_run.now) client.now import known.now → IsTrue result }
{
    match client.imports.get(import) {
        Some(number) => is_as_known(modules, may_run, *number, known),
        None => false,
    }
}

fn is_as_known(modules: &[LinkedModule], may_run: &[bool], number: usize, known: &Entries) -> bool
    ensures known { IsTrue result → IsAsKnown modules.now (runs_of may_run.now) number known.now }
    ensures only { IsAsKnown modules.now (runs_of may_run.now) number known.now → IsTrue result }
{
    if !runs(may_run, number) {
        return false;
    }
    match modules.get(number) {
        Some(imported) => known.cells <= imported.code.cells && exports(imported, known),
        None => false,
    }
}

fn exports(imported: &LinkedModule, known: &Entries) -> bool
    ensures exports { IsTrue result → (place : ℕ) (entry : EntryOf) → slice_get known.now.exported.items place ≡ Some entry → Exports imported.now place entry }
    ensures only { ((place : ℕ) (entry : EntryOf) → slice_get known.now.exported.items place ≡ Some entry → Exports imported.now place entry) → IsTrue result }
{
    for place in 0..known.exported.len() {
        if !exports_at(imported, place, &known.exported[place]) {
            return false;
        }
    }
    true
}

fn exports_at(imported: &LinkedModule, place: usize, entry: &Entry) -> bool
    ensures exports { IsTrue result → Exports imported.now place entry.now }
    ensures only { Exports imported.now place entry.now → IsTrue result }
{
    match imported.code.exported.get(place) {
        Some(number) => match imported.code.procedures.get(*number) {
            Some(procedure) => takes_the_same(&procedure.entry, entry),
            None => false,
        },
        None => false,
    }
}

#[tactic(auto, using(ob_code::proofs::machine::Laid::entry_same))]
fn takes_the_same(first: &Entry, second: &Entry) -> bool
    ensures same { IsTrue result → first.now ≡ second.now }
    ensures only { first.now ≡ second.now → IsTrue result }
{
    first.operands == second.operands
        && first.names == second.names
        && are_same(first.kinds.as_slice(), second.kinds.as_slice())
        && first.is_function == second.is_function
}
