//! The modules of a session in code: what stands beside them so that they may run, and that it does what they mean. Definitions,
//! and laws of them.
ghost use Rattle.ob_image.specs.CommandsCode.{EachCommandsForm, EachCommandsMayRun};
ghost use Rattle.ob_image.specs.Compiled.{EachLoads, EachMayRun};
ghost use Rattle.ob_image.specs.Loading.{EachAgrees, EachLoadedRuns, EachStaysAgreeing};

/// Suppose that each module was compiled over the faces that its imports have now. Then each whose imports link may run: it is
/// linked as its code knows them, enough is known of the operands and names of its code, and its body does what it means.
pub fn may_run_law()
    ensures { EachMayRun }
{}

/// Where a module is loaded, its code in the place of the one before, or after the others, with the cells laid again one after
/// the other, code stays that of the session's modules.
pub fn loads_law()
    ensures { EachLoads }
{}

/// A module whose imports link, and reach none of its name, may run once it is loaded.
pub fn loaded_runs_law()
    ensures { EachLoadedRuns }
{}

/// Where each import was known by the face that the module of its name has, if that has the recorded key, each module that may run
/// was compiled over the faces that its imports have.
pub fn agrees_law()
    ensures { EachAgrees }
{}

/// And so it stays where a module is loaded, if those that import it with the key that it has knew it by its face.
pub fn stays_agreeing_law()
    ensures { EachStaysAgreeing }
{}

/// Commands whose modules may run, and which take and leave nothing, are the body of a module that the compiler takes: it calls
/// one after the other, each in an import of its own.
pub fn commands_form_law()
    ensures { EachCommandsForm }
{}

/// The code of that module, after that of the session's modules: all are linked as their code knows them, enough is known of its
/// operands and names, the modules' code stays that of the session's program, and it does what the commands mean.
pub fn commands_law()
    ensures { EachCommandsMayRun }
{}
