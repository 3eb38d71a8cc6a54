//! Compiled code does what its trees mean, and runs safely.

ghost use Rattle.ob_gen.specs.Commands.{CommandsAllBehave, EachBodyBehaves};
ghost use Rattle.ob_gen.specs.Safe.{EachRunsSafely};

/// The code of a module, linked to that of the modules that it imports, does what the module's body means: from any store
/// in which each variable has its shape, and with any supply of turns and lines, the machine comes to stand exactly where
/// the meaning does, for the same reason, with the same left of its supply and with the picture of the same world. It never
/// misses an operand. Over all these modules the name of a record type has to be that of one shape.
pub fn body_law()
    ensures { EachBodyBehaves }
{}

/// The same of a list of commands, which a module of its own calls one after the other.
pub fn commands_law()
    ensures { CommandsAllBehave }
{}

/// The code that `generate` makes of a well-formed module runs safely: wherever it is linked among modules of whose operands
/// and names enough is known, no run leaves the code, misses an operand or a name, or goes on for ever without a turn or a line,
/// and none takes a cell out of an object: of a module, of an import, of the running call, or of what one of its names stands
/// for. As much is known of the operands and names of all such code.
pub fn safety_law()
    ensures { EachRunsSafely }
{}
