//! The typed trees that the static rules give are well formed: laws of the definitions.
#![tactic(auto)]

ghost use Rattle.ob_check_laws.specs.Agreeing.{EachTreeAgrees};
ghost use Rattle.ob_check_laws.specs.Fitting.{EachCheckedFits};

/// Where the types that loaded modules export have cells (no array of length 0 is among them) and the variables fewer than 2^31,
/// the typed tree that the static rules give a module is well formed over what the interfaces of its imports say: each number in
/// it names a variable, a parameter, a field, a procedure or an import that is there, each variable is used as what it is and has
/// fewer than 2^31 cells, each call passes what the procedure's heading asks for and uses a result exactly where there is one, and
/// no FOR steps by 0. Its own interface says the shapes of its first variables and the headings of its exported procedures, and
/// what it exports is so too.
pub fn fitting_law()
    ensures { EachCheckedFits }
{}

/// Where what loaded modules export is so, the record types in the typed tree that the static rules give a module agree with all
/// shapes that give the name of each type the shape of the type: the names of each are those of a type and its bases, written out.
pub fn kinds_law()
    ensures { EachTreeAgrees }
{}
